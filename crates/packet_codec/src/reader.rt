ghost use Rattle.std.specs.Prelude.{◌≡◌, ◌<◌, ◌≤◌, length, take, drop, Some};
ghost use Rattle.packet_codec.specs.Reading.{Reads, byte_at, taken_at, u16_at, u32_at, u64_at, flag_at, key_at};
ghost use Rattle.packet_codec.specs.Reading.{call_at, text_at, body_at, rec_at, held_at};

use crate::fault::BadPacket;
use far_base::{BODY_LIMIT, Body, KEY_LENGTH, Key, Record};
use std::marker::Model;

/// The bytes of a body, where there is one. Contracts see the body.
#[derive(Drop)]
pub struct Text<'a> {
    present: bool,
    bytes: &'a [u8],
}

impl<'a> Model for Text<'a> {
    ghost use Rattle.std.specs.Prelude.{◌≤◌, List, ℕ, Option, length};
    ghost use Rattle.far_base.specs.declared.body.TheConstants.{BODY_LIMIT};
    ghost use Rattle.far_base.specs.Padded.{shown};

    ghost Value = { Option (List ℕ) };

    ghost view = { λ t. shown t.present t.bytes.now };

    ghost invariant = { λ t. length t.bytes.now ≤ BODY_LIMIT };
}

impl<'a> Text<'a> {
    /// The body of these bytes.
    pub fn body(&self) -> Body
        ensures { result ≡ self.now }
    {
        if !self.present {
            return Body::absent();
        }
        match Body::from_bytes(self.bytes) {
            Some(body) => body,
            None => unreachable!(),
        }
    }
}

/// The bytes that are left. Each method reads the field at their front, and on `Ok` moves past it.
#[derive(Drop)]
pub struct Reader<'a> {
    pub rest: &'a [u8],
}

impl<'a> Reader<'a> {
    fn array<const N: usize>(&mut self) -> Result<[u8; N], BadPacket>
        ensures { Reads result self.new.rest.now (taken_at N self.old.rest.now) }
    {
        let (front, rest) = self.rest.split_first_chunk::<N>().ok_or(BadPacket::Short)?;
        self.rest = rest;
        Ok(*front)
    }

    /// One byte.
    pub fn byte(&mut self) -> Result<u8, BadPacket>
        ensures { Reads result self.new.rest.now (byte_at self.old.rest.now) }
    {
        let [first, rest @ ..] = self.rest else {
            return Err(BadPacket::Short);
        };
        self.rest = rest;
        Ok(*first)
    }

    #[tactic(auto, unfolding(crate::specs::Reading::u16_at))]
    fn u16(&mut self) -> Result<u16, BadPacket>
        ensures { Reads result self.new.rest.now (u16_at self.old.rest.now) }
    {
        Ok(u16::from_be_bytes(self.array()?))
    }

    /// A number of four bytes.
    #[tactic(auto, unfolding(crate::specs::Reading::u32_at))]
    pub fn u32(&mut self) -> Result<u32, BadPacket>
        ensures { Reads result self.new.rest.now (u32_at self.old.rest.now) }
    {
        Ok(u32::from_be_bytes(self.array()?))
    }

    /// A number of eight bytes.
    #[tactic(auto, unfolding(crate::specs::Reading::u64_at))]
    pub fn u64(&mut self) -> Result<u64, BadPacket>
        ensures { Reads result self.new.rest.now (u64_at self.old.rest.now) }
    {
        Ok(u64::from_be_bytes(self.array()?))
    }

    /// A byte that is 0 or 1.
    #[tactic(auto, unfolding(crate::specs::Reading::flag_at))]
    pub fn flag(&mut self) -> Result<bool, BadPacket>
        ensures { Reads result self.new.rest.now (flag_at self.old.rest.now) }
    {
        match self.byte()? {
            0 => Ok(false),
            1 => Ok(true),
            _ => Err(BadPacket::Flag),
        }
    }

    /// Sixteen bytes that are a key.
    #[tactic(auto, unfolding(crate::specs::Reading::key_at))]
    pub fn key(&mut self) -> Result<Key, BadPacket>
        ensures { Reads result self.new.rest.now (key_at self.old.rest.now) }
    {
        let bytes = self.array::<KEY_LENGTH>()?;
        Key::from_array(bytes).ok_or(BadPacket::Pad)
    }

    /// A caller, the number of its operation, and a key.
    #[tactic(auto, unfolding(crate::specs::Reading::call_at))]
    pub fn call(&mut self) -> Result<(u32, u32, Key), BadPacket>
        ensures { Reads result self.new.rest.now (call_at self.old.rest.now) }
    {
        Ok((self.u32()?, self.u32()?, self.key()?))
    }

    fn bytes(&mut self, len: u16) -> Result<Text<'a>, BadPacket>
        requires { len ≤ BODY_LIMIT }
        ensures { Reads result self.new.rest.now (text_at len self.old.rest.now) }
    {
        let len = len as usize;
        if self.rest.len() < len {
            return Err(BadPacket::Short);
        }
        let (bytes, rest) = self.rest.split_at(len);
        self.rest = rest;
        Ok(Text {
            present: true,
            bytes,
        })
    }

    /// A flag, a length and so many bytes; behind the flag 0 the length is 0.
    #[tactic(auto, unfolding(crate::specs::Reading::body_at))]
    pub fn text(&mut self) -> Result<Text<'a>, BadPacket>
        ensures { Reads result self.new.rest.now (body_at self.old.rest.now) }
    {
        let present = self.flag()?;
        let len = self.u16()?;
        let limit = if present { BODY_LIMIT } else { 0 };
        if len as usize > limit {
            return Err(BadPacket::Length);
        }
        if present {
            self.bytes(len)
        } else {
            Ok(Text {
                present: false,
                bytes: &[],
            })
        }
    }

    /// A body.
    pub fn body(&mut self) -> Result<Body, BadPacket>
        ensures { Reads result self.new.rest.now (body_at self.old.rest.now) }
    {
        Ok(self.text()?.body())
    }

    /// A key, the number of its write, and a body.
    #[tactic(auto, unfolding(crate::specs::Reading::rec_at))]
    pub fn rec(&mut self) -> Result<Record, BadPacket>
        ensures { Reads result self.new.rest.now (rec_at self.old.rest.now) }
    {
        Ok(Record {
            key: self.key()?,
            num: self.u64()?,
            body: self.body()?,
        })
    }

    /// A flag, and behind the flag 1 a record.
    #[tactic(auto, unfolding(crate::specs::Reading::held_at))]
    pub fn held(&mut self) -> Result<Option<Record>, BadPacket>
        ensures { Reads result self.new.rest.now (held_at self.old.rest.now) }
    {
        if self.flag()? {
            Ok(Some(self.rec()?))
        } else {
            Ok(None)
        }
    }
}
