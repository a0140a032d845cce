//! The program with an input that is refused, so that its exit number is seen to be that of the refusal.
#![tactic(auto)]

use far_calls::{arguments, ended, obey};
use std::process::ExitCode;

fn main(rt: HostRuntime) -> ExitCode {
    match arguments(&rt) {
        Ok(words) => obey(&rt, &rt, words),
        Err(status) => ended(status),
    }
}
