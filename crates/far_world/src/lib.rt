//! The world: clients, the switch, the controller, servers whose records a keeper has, the messages
//! on their way in bytes, and the log of what happened.
#![tactic(auto)]

mod asking;
mod bag;
mod choice;
mod happening;
mod kept_list;
mod listing;
mod opening;
mod parties;
mod passing;
mod seat;
mod serving;
mod tasks;
mod turn;
mod turning;
mod world;

pub use world::{Halted, World};
