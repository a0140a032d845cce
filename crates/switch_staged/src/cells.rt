use far_base::{BODY_LIMIT, Body, Key};
use std::marker::Model;

/// The number of bytes in a cell of a body.
pub const CELL_LENGTH: usize = 8;

/// The number of cells that count how hot keys are.
pub const HOT_CELLS: u32 = 256;

/// The number of cells of a body.
pub const BODY_CELLS: usize = 32;

/// What stage 0 has.
#[derive(Clone, Copy, Debug, PartialEq, Eq)]
pub struct Gate {
    pub epoch: u32,
    pub counter: u64,
    pub snap: u32,
    pub base: u32,
}

/// Whether a body is there, and its length. Contracts see an option of the length.
#[derive(Clone, Copy, Debug, PartialEq, Eq)]
pub struct Shape {
    present: bool,
    len: u16,
}

impl Model for Shape {
    ghost use Rattle.std.specs.Prelude.{◌≡◌, ◌≤◌, ℕ, Option, false};
    ghost use Rattle.switch_staged.specs.Shapes.{seen_shape, shape_there, shape_length, shape_back};

    ghost Value = { Option ℕ };

    ghost view = { λ s. seen_shape s.present s.len };

    ghost invariant = { λ s. (s.len ≤ 256) × (s.present ≡ false → s.len ≡ 0) };

    ghost inverse = { λ o. record { present = shape_there o; len = shape_length o } };

    ghost inverse_ok = { λ a h. let e = shape_back a.present a.len h.1 in Prim.rw (e.0, e.1) };
}

/// What stage 2 has of a slot: all but the bytes of its body.
#[derive(Clone, Copy, Debug, PartialEq, Eq)]
pub struct Head {
    pub key: Option<Key>,
    pub tag: u64,
    pub valid: bool,
    pub latest: bool,
    pub num: u64,
    pub shape: Shape,
}

/// The mark of a record: its key and number.
#[derive(Clone, Copy, Debug, PartialEq, Eq)]
pub struct Mark {
    key: Key,
    num: u64,
}

impl Model for Mark {
    ghost use Rattle.far_model.specs.View.{Mark as MarkView};

    ghost Value = { MarkView };

    ghost view = { λ m. record { key = m.key; num = m.num } };

    ghost inverse = { λ v. record { key = v.key; num = v.num } };
}

/// What stage 3 has of a slot: the era in which its part was taken, and the mark that it had then.
#[derive(Clone, Copy, Debug, PartialEq, Eq)]
pub struct Taken {
    pub era: u32,
    pub mark: Option<Mark>,
}

/// How often keys of one hot cell were met in an era.
#[derive(Clone, Copy, Debug, PartialEq, Eq)]
pub struct HotCell {
    era: u32,
    count: u32,
}

impl Model for HotCell {
    ghost use Rattle.far_model.specs.View.{HotCell as HotView};

    ghost Value = { HotView };

    ghost view = { λ c. record { era = c.era; count = c.count } };

    ghost inverse = { λ v. record { era = v.era; count = v.count } };
}

/// A cell of a body.
pub type Cell = [u8; CELL_LENGTH];

/// The cells of a body.
pub type Cells = [[u8; CELL_LENGTH]; BODY_CELLS];

ghost use Rattle.std.specs.Prelude.{◌≡◌, ◌+◌, ◌*◌, ◌<◌, ◌≤◌, ◌^◌, ◌++◌, List, ℕ, length, take, drop, replicate, None};
ghost use Rattle.std.specs.Prelude.{Some, true, false, is_some, nat_eq, nat_le, ◌&&◌};
ghost use Rattle.far_base.specs.Padded.{padded, text_of, shown, length_of, IsPadded};
ghost use Rattle.far_model.specs.Pass as model;
ghost use Rattle.far_model.specs.Log as view;
ghost use Rattle.switch_staged.specs.Rows.{cut, joined};
ghost use Rattle.switch_staged.specs.Stages.{no_taken};
ghost use Rattle.switch_staged.specs.Shapes.{shape_of, shaped, seen_shape};

impl Gate {
    /// No snapshot has begun.
    pub fn opening(epoch: u32, counter: u64) -> Self
        ensures { result ≡ record { epoch = epoch; counter = counter; snap = 0; base = 0 } }
    {
        Gate {
            epoch,
            counter,
            snap: 0,
            base: 0,
        }
    }
}

impl Taken {
    /// No part was taken.
    pub fn never() -> Self
        ensures { result ≡ no_taken }
    {
        Taken { era: 0, mark: None }
    }
}

impl HotCell {
    /// A cell of the first era.
    pub fn new() -> Self
        ensures { result ≡ record { era = 0; count = 0 } }
    {
        HotCell { era: 0, count: 0 }
    }

    /// The cell as it stands in an era.
    pub fn in_era(self, era: u32) -> Self
        ensures { result ≡ model.in_era era self }
    {
        if self.era == era {
            return self;
        }
        HotCell { era, count: 0 }
    }

    /// Whether one more touch makes it hot.
    pub fn grows_hot(&self, hot: u32) -> bool
        ensures { result ≡ model.grows_hot hot self.now }
    {
        hot != 0 && hot - 1 <= self.count
    }

    /// The cell after one more touch.
    pub fn counted(self, hot: u32) -> Self
        ensures { result ≡ model.counted hot self }
    {
        if hot == 0 {
            return self;
        }
        let count = if self.grows_hot(hot) {
            0
        } else {
            self.count + 1
        };
        HotCell {
            era: self.era,
            count,
        }
    }
}

impl Mark {
    /// The mark of a record of this key and number.
    pub fn of(key: Key, num: u64) -> Self
        ensures { result ≡ record { key = key; num = num } }
    {
        Mark { key, num }
    }

    /// Whether both are of one key and number.
    pub fn is_same(&self, other: &Mark) -> bool
        ensures { result ≡ (view.same_key self.now.key other.now.key && nat_eq self.now.num other.now.num) }
    {
        self.key == other.key && self.num == other.num
    }
}

impl Shape {
    /// The shape of an absent body.
    pub fn absent() -> Self
        ensures { result ≡ None }
    {
        Shape {
            present: false,
            len: 0,
        }
    }

    /// The shape of a body.
    pub fn of(body: &Body) -> Self
        ensures { result ≡ shape_of body.now }
    {
        if !body.is_present() {
            return Shape::absent();
        }
        Shape {
            present: true,
            len: body.text().len() as u16,
        }
    }

    /// The body of this shape that begins these bytes.
    pub fn body(&self, bytes: &[u8]) -> Body
        requires { length bytes.now ≡ 256 }
        ensures { result ≡ shaped self.now bytes.now }
    {
        if !self.present {
            return Body::absent();
        }
        match Body::from_bytes(&bytes[..self.len as usize]) {
            Some(body) => body,
            None => unreachable!(),
        }
    }
}
