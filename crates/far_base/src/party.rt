/// Who sends or gets a message. Clients and servers are numbered from 0.
#[derive(Clone, Copy, Debug, PartialEq, Eq)]
pub enum Party {
    Client(u32),
    Switch,
    Server(u32),
    Controller,
}
