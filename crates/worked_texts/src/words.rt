use far_base::Memory;
use std::alloc::Global;

/// What is written where the arguments are no command.
pub const USAGE: &str =
    "usage: far replay, run, image, recover, line, pipes P, audit, link, or bulk START OPS\n";

/// The arguments of a command line. Refused where memory is.
pub fn words_of(alloc: Global, line: &str) -> Result<Vec<String>, Memory> {
    let mut words = Vec::new(alloc);
    for word in line.split(' ') {
        let word = String::from_str(alloc, word)?;
        words.push(word).map_err(|_| Memory)?;
    }
    Ok(words)
}
