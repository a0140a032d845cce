ghost use Rattle.std.specs.Prelude.{◌≡◌, ◌+◌, ◌<◌, ◌^◌, length, IfSome, IfNone};
ghost use Rattle.far_text.specs.Options.{Shows};
ghost use Rattle.far_text.specs.Pieces.{cut_at};

use crate::words::cut;

/// What is left of a text that is read line by line, and how many lines were read.
#[derive(Drop)]
pub struct Lines<'a> {
    /// The text behind the lines that were read.
    pub rest: &'a [u8],
    /// The number of lines that were read, which is that of the line that `next_line` answered last.
    pub read: u32,
}

impl<'a> Lines<'a> {
    /// The text before its first line.
    pub fn new(text: &'a [u8]) -> Self
        ensures rest { result.rest.now ≡ text.now }
        ensures read { result.read ≡ 0 }
    {
        Lines {
            rest: text,
            read: 0,
        }
    }

    /// The next line, without its end. `None` exactly where no line end is left; all is then as it was.
    pub fn next_line(&mut self) -> Option<&'a [u8]>
        requires { self.old.read + 1 < 2 ^ 32 }
        ensures line { Shows (λ line. (line.now, self.new.rest.now)) result (cut_at 10 self.old.rest.now) }
        ensures count { IfSome result (λ _. self.new.read ≡ self.old.read + 1) }
        ensures shorter { IfSome result (λ _. length self.new.rest.now < length self.old.rest.now) }
        ensures kept { IfNone result (self.new ≡ self.old) }
    {
        let (line, rest) = cut(self.rest, b'\n')?;
        self.rest = rest;
        self.read += 1;
        Some(line)
    }
}
