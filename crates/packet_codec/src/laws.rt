ghost use Rattle.std.specs.Prelude.{◌≡◌, ℕ, List, [], ◌++◌};
ghost use Rattle.far_base.specs.declared.packet.Packet.{Packet};
ghost use Rattle.packet_codec.specs.Spelling.{Spells};

/// Spellings and packets belong together one to one, and no spelling is a proper prefix of another.
pub fn spellings_are_one()
    ensures packet { (bytes : List ℕ) (p q : Packet) → Spells bytes p → Spells bytes q → p ≡ q }
    ensures spelling { (a b : List ℕ) (p : Packet) → Spells a p → Spells b p → a ≡ b }
    ensures prefix { (front back : List ℕ) (p q : Packet) → Spells front p → Spells (front ++ back) q → back ≡ [] }
{}
