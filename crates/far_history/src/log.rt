use crate::stored::{Stored, bare_of, keep_body, line_at};
use far_base::{BODY_LIMIT, LogEntry, LogLine, Memory};
use std::alloc::Global;
use std::marker::Model;

/// What happened in a run: the number of steps made, and the lines in the order in which they were
/// added. Contracts see the steps, the list of lines, and for how many more lines there is room.
#[derive(Drop)]
pub struct Log {
    steps: u64,
    stored: Vec<Stored>,
    /// The bytes of the bodies of all lines.
    bytes: Vec<u8>,
}

impl Model for Log {
    ghost use Rattle.std.specs.Prelude.{◌-◌, length, vec_len, vec_capacity};
    ghost use Rattle.far_model.specs.Members.{Each};
    ghost use Rattle.far_history.specs.RoomyLog.{RoomyLog};
    ghost use Rattle.far_history.specs.Stored.{lines_in, room_in, IsWithin};

    ghost Value = { RoomyLog };

    ghost view = { λ l. record {
      steps = l.steps;
      lines = lines_in l.bytes.items l.stored.items;
      room = room_in
          (vec_capacity l.stored - vec_len l.stored) (vec_capacity l.bytes - vec_len l.bytes);
    } };

    ghost invariant = { λ l. Each (IsWithin (length l.bytes.items)) l.stored.items };
}

ghost use Rattle.std.specs.Prelude.{◌≡◌, ◌+◌, ◌<◌, ◌≤◌, ◌++◌, [], ◌∷◌, length, slice_get, Some, OnOk, OnErr};
ghost use Rattle.far_history.specs.Stored.{lines_in};

impl Log {
    /// A log of no steps and no lines.
    pub fn new(alloc: Global) -> Self
        ensures steps { result.steps ≡ 0 }
        ensures lines { result.lines ≡ [] }
    {
        Log {
            steps: 0,
            stored: Vec::new(alloc),
            bytes: Vec::new(alloc),
        }
    }

    /// Makes room for so many more lines.
    pub fn reserve(&mut self, count: usize) -> Result<(), Memory>
        ensures steps { self.new.steps ≡ self.old.steps }
        ensures lines { self.new.lines ≡ self.old.lines }
        ensures room { OnOk result (count ≤ self.new.room) }
        ensures kept { self.old.room ≤ self.new.room }
        ensures full { OnErr result (self.old.room < count) }
    {
        self.stored.reserve(count)?;
        let Some(most) = count.checked_mul(BODY_LIMIT) else {
            return Err(Memory);
        };
        self.bytes.reserve(most)?;
        Ok(())
    }

    /// Adds a line, for which there is room.
    pub fn push(&mut self, line: LogLine)
        requires { 0 < self.old.room }
        ensures steps { self.new.steps ≡ self.old.steps }
        ensures lines { self.new.lines ≡ self.old.lines ++ line ∷ [] }
        ensures room { self.old.room ≤ self.new.room + 1 }
    {
        self.note(line.moment, &line.entry);
    }

    /// Adds a line of that moment and entry, for which there is room.
    pub fn note(&mut self, moment: u64, entry: &LogEntry)
        requires { 0 < self.old.room }
        ensures steps { self.new.steps ≡ self.old.steps }
        ensures lines { self.new.lines ≡ self.old.lines ++ record { moment = moment; entry = entry.now } ∷ [] }
        ensures room { self.old.room ≤ self.new.room + 1 }
    {
        let body = keep_body(&mut self.bytes, entry);
        self.stored.push_reserved(Stored {
            moment,
            bare: bare_of(entry),
            body,
        });
    }

    /// The number of steps made.
    pub fn steps(&self) -> u64
        ensures { result ≡ self.now.steps }
    {
        self.steps
    }

    /// Sets the number of steps made.
    pub fn set_steps(&mut self, steps: u64)
        ensures { self.new ≡ record self.old { steps = steps } }
    {
        self.steps = steps;
    }

    /// The number of lines.
    pub fn len(&self) -> usize
        ensures { result ≡ length self.now.lines }
    {
        self.stored.len()
    }

    /// The line at the place, counted from 0.
    pub fn line(&self, place: usize) -> LogLine
        requires { place < length self.now.lines }
        ensures { slice_get self.now.lines place ≡ Some result }
    {
        line_at(&self.bytes, &self.stored[place])
    }

    /// The lines without their bodies, and the bytes of all bodies.
    pub(crate) fn parts(&self) -> (&[Stored], &[u8])
        ensures { self.now.lines ≡ lines_in result.1.now result.0.now }
    {
        (&self.stored, &self.bytes)
    }
}
