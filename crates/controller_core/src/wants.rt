use far_base::{Key, Memory};
use std::alloc::Global;
use std::collections::VecDeque;
use std::marker::Model;

/// The keys that are to be admitted, in the order in which they were asked for.
#[derive(Drop)]
pub(crate) struct Wants {
    keys: VecDeque<Key>,
}

impl Model for Wants {
    ghost use Rattle.std.specs.Prelude.{List, ℕ};

    ghost Value = { List (List ℕ) };

    ghost view = { λ w. w.keys.items };
}

ghost use Rattle.std.specs.Prelude.{◌≡◌, ◌++◌, [], ◌∷◌, drop, OnOk, OnErr};
ghost use Rattle.controller_core.specs.Wants.{first_want};

impl Wants {
    /// No keys.
    pub(crate) fn new(alloc: Global) -> Self
        ensures { result ≡ [] }
    {
        Wants {
            keys: VecDeque::new(alloc),
        }
    }

    /// The key that is wanted first.
    pub(crate) fn first(&self) -> Option<Key>
        ensures { result ≡ first_want self.now }
    {
        self.keys.front().copied()
    }

    /// The key goes last.
    pub(crate) fn push(&mut self, key: Key) -> Result<(), Memory>
        ensures ok { OnOk result (self.new ≡ self.old ++ key ∷ []) }
        ensures err { OnErr result (self.new ≡ self.old) }
    {
        match self.keys.push_back(key) {
            Ok(()) => Ok(()),
            Err(_) => Err(Memory),
        }
    }

    /// The first key, where there is one, is no longer wanted.
    pub(crate) fn drop_first(&mut self)
        ensures { self.new ≡ drop 1 self.old }
    {
        self.keys.pop_front();
    }

    /// No key is wanted.
    pub(crate) fn clear(&mut self)
        ensures { self.new ≡ [] }
    {
        self.keys.clear();
    }
}
