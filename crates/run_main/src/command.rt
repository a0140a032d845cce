ghost use Rattle.std.specs.Prelude.{◌≡◌, ◌∷◌, [], map, string_bytes, IfSome, Some};
ghost use Rattle.run_main.specs.Commands.{Names, bulk_named, bulk_with, command_named, command_of};

use far_text::number_of;

/// What the arguments ask of the top call.
#[derive(Clone, Copy)]
pub enum Command {
    /// Reads a workload, runs it to its end, and writes the report.
    Replay,
    /// Reads a workload, runs it until a recovery begins, and writes the image of what was kept then.
    Image,
    /// Reads an image, and writes the map that a recovery makes of it.
    Recover,
    /// Reads a report, and tells whether the lines of its history are good.
    Audit,
    /// Reads the events of a link that loses and copies frames, makes them happen, and writes what they tell.
    Link,
    /// Runs the generated workload of so many operations to its end, and writes its summary.
    Bulk { start: u64, ops: u64 },
}

/// The command of one word.
fn command_named(word: &str) -> Option<Command>
    ensures command { result ≡ command_named word.now }
    ensures found { IfSome result (Names (word.now ∷ [])) }
{
    match word {
        "replay" => Some(Command::Replay),
        "image" => Some(Command::Image),
        "recover" => Some(Command::Recover),
        "audit" => Some(Command::Audit),
        "link" => Some(Command::Link),
        _ => None,
    }
}

/// The command with these numbers.
fn bulk_with(start: Option<u64>, ops: Option<u64>) -> Option<Command>
    ensures { result ≡ bulk_with start ops }
{
    match (start, ops) {
        (Some(start), Some(ops)) => Some(Command::Bulk { start, ops }),
        _ => None,
    }
}

/// The command of three words.
fn bulk_named(word: &str, start: &[u8], ops: &[u8]) -> Option<Command>
    ensures command { result ≡ bulk_named word.now start.now ops.now }
    ensures found { IfSome result (Names (word.now ∷ start.now ∷ ops.now ∷ [])) }
    ensures only { (command : Command) → Names (word.now ∷ start.now ∷ ops.now ∷ []) command → result ≡ Some command }
{
    if word != "bulk" {
        return None;
    }
    bulk_with(number_of(start), number_of(ops))
}

/// The command that the arguments name. `None` exactly where they name none.
pub fn command_of(words: &[String]) -> Option<Command>
    ensures command { result ≡ command_of (map string_bytes words.now) }
    ensures found { IfSome result (Names (map string_bytes words.now)) }
    ensures only { (command : Command) → Names (map string_bytes words.now) command → result ≡ Some command }
{
    match words {
        [word] => command_named(word.as_str()),
        [word, start, ops] => bulk_named(word.as_str(), start.as_bytes(), ops.as_bytes()),
        _ => None,
    }
}
