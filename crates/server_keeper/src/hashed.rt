use far_base::Key;
use std::hash::{Hash, Hasher};
use std::marker::Model;

/// A key in a table that finds its entries by hashes. Contracts see the bytes of the key.
#[derive(Clone, Copy)]
pub(crate) struct Hashed {
    pub key: Key,
}

impl Model for Hashed {
    ghost use Rattle.std.specs.Prelude.{List, ℕ};

    ghost Value = { List ℕ };

    ghost view = { λ h. h.key };

    ghost inverse = { λ bytes. record { key = bytes } };
}

ghost use Rattle.std.specs.Prelude.{nat_eq, [], ◌∷◌};
ghost use Rattle.std.specs.Cmp.Lexicographic.{pointwise, nat_list_eq_equiv};
ghost use Rattle.std.specs.Cmp.{partial_equiv_from_equiv};
ghost use Rattle.std.specs.Cmp.Rules.{hashing};
ghost use Rattle.std.proofs.Common.{rules};

impl PartialEq for Hashed {
    ghost eq = { pointwise nat_eq };

    ghost laws = { partial_equiv_from_equiv nat_list_eq_equiv };

    fn eq(&self, other: &Self) -> bool {
        self.key == other.key
    }
}

impl Eq for Hashed {
    ghost laws = { nat_list_eq_equiv };
}

// The bytes go to the hasher all at once: each of its steps waits for the one before.
impl Hash for Hashed {
    ghost hash_input = { λ key. key ∷ [] };

    ghost respects_eq = { Prim.search (hashing, rules) };

    fn hash<H: Hasher>(&self, state: &mut H) {
        state.write(self.key.bytes());
    }
}
