ghost use Rattle.std.specs.Prelude.{◌≡◌, ◌≤◌, ◌+◌, ◌++◌, [], ◌∷◌, length};
ghost use Rattle.far_base.specs.declared.body.TheConstants.{BODY_LIMIT};
ghost use Rattle.packet_codec.specs.declared.wire.TheConstants.{WIRE_SIZE};
ghost use Rattle.packet_codec.specs.Spelling.{Adds, u16_part, u32_part, u64_part, flag_part, key_part};
ghost use Rattle.packet_codec.specs.Spelling.{call_part, body_part, rec_part, held_part};

use crate::wire::{VERSION, Wire};
use byteorder::{BigEndian, ByteOrder};
use far_base::{Body, Key, Record};

impl Wire {
    /// The version and the number of a kind.
    pub(crate) fn begin(&mut self, kind: u8)
        requires { self.old ≡ [] }
        ensures { self.new ≡ VERSION ∷ kind ∷ [] }
    {
        self.push(&[VERSION, kind]);
    }

    #[tactic(auto, unfolding(crate::specs::Spelling::u16_part))]
    fn u16(&mut self, n: u16)
        requires { length self.old + 2 ≤ WIRE_SIZE }
        ensures added { Adds self.old self.new (u16_part n) }
        ensures len { length self.new ≡ length self.old + 2 }
    {
        let mut bytes = [0; 2];
        BigEndian::write_u16(&mut bytes, n);
        self.push(&bytes);
    }

    /// A number of four bytes.
    #[tactic(auto, unfolding(crate::specs::Spelling::u32_part))]
    pub(crate) fn u32(&mut self, n: u32)
        requires { length self.old + 4 ≤ WIRE_SIZE }
        ensures added { Adds self.old self.new (u32_part n) }
        ensures len { length self.new ≡ length self.old + 4 }
    {
        let mut bytes = [0; 4];
        BigEndian::write_u32(&mut bytes, n);
        self.push(&bytes);
    }

    /// A number of eight bytes.
    #[tactic(auto, unfolding(crate::specs::Spelling::u64_part))]
    pub(crate) fn u64(&mut self, n: u64)
        requires { length self.old + 8 ≤ WIRE_SIZE }
        ensures added { Adds self.old self.new (u64_part n) }
        ensures len { length self.new ≡ length self.old + 8 }
    {
        let mut bytes = [0; 8];
        BigEndian::write_u64(&mut bytes, n);
        self.push(&bytes);
    }

    /// A byte that is 0 or 1.
    #[tactic(auto, unfolding(crate::specs::Spelling::flag_part))]
    pub(crate) fn flag(&mut self, flag: bool)
        requires { length self.old + 1 ≤ WIRE_SIZE }
        ensures added { Adds self.old self.new (flag_part flag) }
        ensures len { length self.new ≡ length self.old + 1 }
    {
        self.push(&[if flag { 1 } else { 0 }]);
    }

    /// The sixteen bytes of a key.
    #[tactic(auto, unfolding(crate::specs::Spelling::key_part))]
    pub(crate) fn key(&mut self, key: &Key)
        requires { length self.old + 16 ≤ WIRE_SIZE }
        ensures added { Adds self.old self.new (key_part key.now) }
        ensures len { length self.new ≡ length self.old + 16 }
    {
        self.push(key.bytes());
    }

    /// The caller, the number of its operation, and the key.
    #[tactic(auto, unfolding(crate::specs::Spelling::call_part))]
    pub(crate) fn call(&mut self, caller: u32, op: u32, key: &Key)
        requires { length self.old + 24 ≤ WIRE_SIZE }
        ensures added { Adds self.old self.new (call_part caller op key.now) }
        ensures len { length self.new ≡ length self.old + 24 }
    {
        self.u32(caller);
        self.u32(op);
        self.key(key);
    }

    /// A flag, the length and the bytes.
    #[tactic(auto, unfolding(crate::specs::Spelling::body_part))]
    pub(crate) fn body(&mut self, body: &Body)
        requires { length self.old + (3 + BODY_LIMIT) ≤ WIRE_SIZE }
        ensures added { Adds self.old self.new (body_part body.now) }
        ensures len { length self.new ≤ length self.old + (3 + BODY_LIMIT) }
    {
        self.flag(body.is_present());
        self.u16(body.text().len() as u16);
        self.push(body.text());
    }

    /// A key, the number of its write, and a body.
    #[tactic(auto, unfolding(crate::specs::Spelling::rec_part))]
    pub(crate) fn rec(&mut self, rec: &Record)
        requires { length self.old + (27 + BODY_LIMIT) ≤ WIRE_SIZE }
        ensures added { Adds self.old self.new (rec_part rec.now) }
        ensures len { length self.new ≤ length self.old + (27 + BODY_LIMIT) }
    {
        self.key(&rec.key);
        self.u64(rec.num);
        self.body(&rec.body);
    }

    /// A flag, and behind the flag 1 a record.
    #[tactic(auto, unfolding(crate::specs::Spelling::held_part))]
    pub(crate) fn held(&mut self, held: &Option<Record>)
        requires { length self.old + (28 + BODY_LIMIT) ≤ WIRE_SIZE }
        ensures added { Adds self.old self.new (held_part held.now) }
        ensures len { length self.new ≤ length self.old + (28 + BODY_LIMIT) }
    {
        match held {
            None => self.flag(false),
            Some(rec) => {
                self.flag(true);
                self.rec(rec);
            }
        }
    }
}
