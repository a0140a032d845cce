use clap::Command;
use std::alloc::{AllocError, Global};

const ABOUT: &str =
    "A simulator of a write-back cache in a programmable switch, in front of key-value servers";

/// The words of the usage line, each with what it reads and writes, and an example.
const COMMANDS: [(&str, &str); 9] = [
    (
        "replay",
        "reads a workload, runs it by its picks and writes the report: far replay < work.far",
    ),
    (
        "run",
        "reads a workload, runs each party in a thread and writes the report: far run < work.far",
    ),
    (
        "image",
        "reads a workload, runs it to its first recovery and writes the records that are kept then: \
         far image < work.far > kept.image",
    ),
    (
        "recover",
        "reads such an image and writes the map that the recovery leaves: far recover < kept.image",
    ),
    (
        "line",
        "reads packets as hexadecimal digits, passes them through a switch whose stages work in threads, and \
         writes what leaves it: far line < packets.far",
    ),
    (
        "pipes",
        "with P: reads a workload, runs its part for each of P pipes in threads and writes a report \
         for each: far pipes 2 < work.far",
    ),
    (
        "audit",
        "reads a report and tells whether its history is one that a correct store can have: \
         far replay < work.far | far audit",
    ),
    (
        "link",
        "reads the events of a link that loses and copies frames and writes what they tell: \
         far link < events.link",
    ),
    (
        "bulk",
        "with START OPS: reads nothing, makes OPS operations from the start number START, runs them \
         and writes a summary: far bulk 7 20000",
    ),
];

const AFTER: &str = "\
Workloads, images and reports are read from the standard input, and all is written to the standard output.
A first word table keeps the records of the servers in a database: far table replay < work.far

Exit numbers:
  0  done
  2  usage: the words name no command
  3  bad line: the input has a faulty line
  4  read fault
  5  write fault
  6  keeper fault
  7  out of memory
  8  too large: a limit is passed
  9  bad image, or a conflict in an image
  11 wrong: the history of a report is not one that a correct store can have";

fn subcommand<'a>(alloc: Global, name: &'a str, about: &'a str) -> Command<'a> {
    Command::new(alloc, name).about(about)
}

/// The help text: each word of the usage line with what it reads and writes, and the exit numbers.
pub(crate) fn help_text(alloc: Global) -> Result<String, AllocError> {
    let mut command = Command::new(alloc, "far")
        .about(ABOUT)
        .after_help(AFTER)
        .subcommand_required(true)
        .disable_help_flag(true)
        .disable_help_subcommand(true);
    for (name, about) in COMMANDS {
        command = command.subcommand(subcommand(alloc, name, about))?;
    }
    command.render_help()
}
