//! Worked runs: runs in threads and in pipes, and lines of packets, with threads that wait for each other; runs that
//! are made again by their events; worlds that go on after a failed call, and stops at every step of a run.
#![tactic(auto)]

#[cfg(test)]
mod calls;
#[cfg(test)]
mod lines;
#[cfg(test)]
mod pipes;
#[cfg(test)]
mod replays;
#[cfg(test)]
mod runs;
#[cfg(test)]
mod seen;
#[cfg(test)]
mod stops;
#[cfg(test)]
mod worlds;
