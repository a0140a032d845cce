//! Running a world to its end: by the picks of a workload, or by workers in threads that take turns under a lock.
#![tactic(auto)]

mod crew;
mod ending;
mod plans;
mod recovering;
mod running;
mod shared;
mod world_lock;

pub use crew::{Crew, party_count};
pub use ending::{ended, started};
pub use recovering::pump_to_recover;
pub use running::pump;
pub use shared::Made;
pub use world_lock::{Watch, WorldLock, work};
