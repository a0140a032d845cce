//! Keepers of the servers' records in memory, and what a server does with a packet over any keeper.
#![tactic(auto)]

mod hashed;
mod map_keeper;
mod records;
mod scripted;
mod step;
mod table;
mod table_keeper;

pub use map_keeper::MapKeeper;
pub use scripted::ScriptedKeeper;
pub use step::{StepFault, server_step};
pub use table_keeper::TableKeeper;

#[cfg(test)]
mod tests;
