//! The laws of logs and histories: functions with no code, whose contracts are what holds of every coherent log.
#![tactic(auto)]

mod logs;

pub use logs::{all_placed, coherent_log, one_history};
