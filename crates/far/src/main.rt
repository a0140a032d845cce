//! The program: the standard input and output around the top calls.
#![tactic(auto)]

mod help;
#[cfg(test)]
mod tables;

use crate::help::help_text;
use far_calls::{arguments, ended, obey};
use far_outside::{Sink, SinkFault, StdSink};
use run_main::Status;
use std::io;
use std::process::ExitCode;

/// Whether the words are the one word `help`.
fn is_help(words: &[String]) -> bool {
    match words {
        [word] => word.as_str() == "help",
        _ => false,
    }
}

fn print_help(rt: &HostRuntime) -> Status {
    let Ok(text) = help_text(rt.alloc()) else {
        return Status::Memory;
    };
    let mut sink = StdSink::new(io::writer(rt));
    match sink.write(text.as_bytes()) {
        Ok(()) => Status::Done,
        Err(SinkFault::Memory) => Status::Memory,
        Err(SinkFault::Failed) => Status::WriteFault,
    }
}

fn main(rt: HostRuntime) -> ExitCode {
    match arguments(&rt) {
        Ok(words) if is_help(&words) => ended(print_help(&rt)),
        Ok(words) => obey(&rt, &rt, words),
        Err(status) => ended(status),
    }
}

#[cfg(test)]
mod tests {
    use super::*;
    use std::test::Fail;

    #[test]
    fn the_help_names_each_word_of_the_usage_line(rt: HostRuntime) -> Result<(), Fail> {
        let text = help_text(rt.alloc())?;
        for word in [
            "far",
            "\n  replay ",
            "\n  run ",
            "\n  image ",
            "\n  recover ",
            "\n  line ",
            "\n  pipes ",
            "\n  audit ",
            "\n  link ",
            "\n  bulk ",
            "START OPS",
        ] {
            assert!(rt; text.contains(word));
        }
        Ok(())
    }
}
