//! Reading bytes from left to right.

ghost use Rattle.std.specs.Prelude.{◌≡◌, ◌≢◌, pos, ◌+ℤ◌, ◌*ℤ◌, FitsSigned, ◌-◌, ◌⊎◌, IsTrue, ◌+◌, ◌*◌, ◌^◌, ◌<◌, ◌≤◌, length, IfOk, IfErr};
ghost use Rattle.wasm_bytes.specs.Reading.{Input, byte, raw, frame, part, nothing_left, remaining, end_of, value_of};
ghost use Rattle.wasm_bytes.specs.Numbers.{unsigned_from, number32, number64};
ghost use Rattle.std.specs.Int.{w64};
ghost use Rattle.wasm_bytes.specs.Signed.{signed_from, signed32, signed33, signed64, signed_digit, last_allowed, IsWithin};
ghost use Rattle.wasm_bytes.specs.Gives.{Gives, GivesBy, Decodes};
ghost use Rattle.wasm_bytes.specs.declared.fault.ReadFault.TheVariants.{OutOfMemory};

use crate::fault::ReadFault;
use std::marker::Model;

/// What is left of the bytes, up to the end of what is being read.
#[derive(Drop)]
pub struct Reader<'a> {
    place: u64,
    bytes: &'a [u8],
}

impl<'a> Model for Reader<'a> {
    ghost use Rattle.std.specs.Prelude.{◌+◌, ◌^◌, ◌<◌, length};
    ghost use Rattle.wasm_bytes.specs.Reading.{Input};

    ghost Value = { Input };

    ghost view = { λ r. record { place = r.place; bytes = r.bytes.now } };

    ghost invariant = { λ r. r.place + length r.bytes.now < 2 ^ 64 };
}

impl<'a> Reader<'a> {
    pub fn new(bytes: &'a [u8]) -> Reader<'a>
        ensures { result ≡ record { place = 0; bytes = bytes.now } }
    {
        Reader { place: 0, bytes }
    }

    /// The offset of the next byte.
    pub fn place(&self) -> u64
        ensures { result ≡ self.now.place }
    {
        self.place
    }

    /// The offset at which the bytes end.
    pub fn end(&self) -> u64
        ensures { result ≡ end_of self.now }
    {
        self.place + self.bytes.len() as u64
    }

    pub fn byte(&mut self) -> Result<u8, ReadFault>
        ensures value { Gives result self.new (byte self.old) }
        ensures bound { IfOk result (λ b. b < 256) }
        ensures sure { IfErr result (λ e. e ≢ OutOfMemory) }
    {
        match self.bytes {
            [] => Err(ReadFault::Parse { place: self.place }),
            [first, rest @ ..] => {
                self.place += 1;
                self.bytes = rest;
                Ok(*first)
            }
        }
    }

    /// The next byte, which stays to be read.
    pub fn peek(&self) -> Result<u8, ReadFault>
        ensures value { Decodes result (value_of (byte self.now)) }
        ensures sure { IfErr result (λ e. e ≢ OutOfMemory) }
    {
        match self.bytes {
            [] => Err(ReadFault::Parse { place: self.place }),
            [first, ..] => Ok(*first),
        }
    }

    /// The next bytes, so many.
    pub fn raw(&mut self, len: usize) -> Result<&'a [u8], ReadFault>
        ensures value { GivesBy (λ x. x.now) result self.new (raw len self.old) }
        ensures sure { IfErr result (λ e. e ≢ OutOfMemory) }
    {
        if self.bytes.len() < len {
            return Err(ReadFault::Parse { place: self.end() });
        }
        let (front, rest) = self.bytes.split_at(len);
        self.place += len as u64;
        self.bytes = rest;
        Ok(front)
    }

    /// The next bytes, so many, to be read by themselves.
    pub fn frame(&mut self, len: usize) -> Result<Reader<'a>, ReadFault>
        ensures value { Gives result self.new (frame len self.old) }
        ensures sure { IfErr result (λ e. e ≢ OutOfMemory) }
    {
        if self.bytes.len() < len {
            return Err(ReadFault::Parse { place: self.end() });
        }
        let (front, rest) = self.bytes.split_at(len);
        let inside = Reader {
            place: self.place,
            bytes: front,
        };
        self.place += len as u64;
        self.bytes = rest;
        Ok(inside)
    }

    /// The next bytes, so many or as far as they are there, to be read by themselves. They stay to be passed.
    pub fn part(&self, len: usize) -> Reader<'a>
        ensures { result ≡ part len self.now }
    {
        let bytes = if len < self.bytes.len() {
            &self.bytes[..len]
        } else {
            self.bytes
        };
        Reader {
            place: self.place,
            bytes,
        }
    }

    /// Nothing is left over.
    pub fn finish(&mut self) -> Result<(), ReadFault>
        ensures value { Gives result self.new (nothing_left self.old) }
        ensures sure { IfErr result (λ e. e ≢ OutOfMemory) }
    {
        if self.bytes.is_empty() {
            Ok(())
        } else {
            Err(ReadFault::Parse { place: self.place })
        }
    }

    #[tactic(auto, unfolding(crate::specs::Numbers::unsigned_from))]
    fn unsigned(&mut self, start: u64, more: u32, last: u8) -> Result<u64, ReadFault>
        requires some { 0 < last }
        requires fits { last * 128 ^ more ≤ 2 ^ 64 }
        ensures value { Gives result self.new (unsigned_from start more last self.old) }
        ensures bound { IfOk result (λ value. value < last * 128 ^ more) }
        ensures sure { IfErr result (λ e. e ≢ OutOfMemory) }
    {
        let byte = self.byte()?;
        if more == 0 {
            if byte < last {
                return Ok(byte as u64);
            }
            return Err(ReadFault::Parse { place: start });
        }
        if byte < 128 {
            return Ok(byte as u64);
        }
        let high = self.unsigned(start, more - 1, last)?;
        Ok((byte - 128) as u64 + 128 * high)
    }

    /// A number of 32 bits.
    #[tactic(auto, unfolding(crate::specs::Numbers::number32))]
    pub fn number32(&mut self) -> Result<u32, ReadFault>
        ensures value { Gives result self.new (number32 self.old) }
        ensures sure { IfErr result (λ e. e ≢ OutOfMemory) }
    {
        let start = self.place;
        Ok(self.unsigned(start, 4, 16)? as u32)
    }

    /// A number of 64 bits.
    #[tactic(auto, unfolding(crate::specs::Numbers::number64))]
    pub fn number64(&mut self) -> Result<u64, ReadFault>
        ensures value { Gives result self.new (number64 self.old) }
        ensures sure { IfErr result (λ e. e ≢ OutOfMemory) }
    {
        let start = self.place;
        self.unsigned(start, 9, 2)
    }

    #[tactic(auto, unfolding(crate::specs::Signed::signed_from))]
    fn signed(&mut self, start: u64, more: u32, room: u8) -> Result<i64, ReadFault>
        requires some { 0 < room }
        requires few { room ≤ 64 }
        requires fits { room * 128 ^ more ≤ 2 ^ 63 }
        ensures value { Gives result self.new (signed_from start more room self.old) }
        ensures bound { IfOk result (IsWithin (room * 128 ^ more)) }
        ensures sure { IfErr result (λ e. e ≢ OutOfMemory) }
    {
        let byte = self.byte()?;
        if more == 0 {
            if byte < 128 && is_last(byte, room) {
                return Ok(digit(byte));
            }
            return Err(ReadFault::Parse { place: start });
        }
        if byte < 128 {
            return Ok(digit(byte));
        }
        let high = self.signed(start, more - 1, room)?;
        Ok(joined(byte, high))
    }

    /// A signed number of 32 bits.
    #[tactic(auto, unfolding(crate::specs::Signed::signed32))]
    pub fn signed32(&mut self) -> Result<i32, ReadFault>
        ensures value { Gives result self.new (signed32 self.old) }
        ensures sure { IfErr result (λ e. e ≢ OutOfMemory) }
    {
        let start = self.place;
        Ok(self.signed(start, 4, 8)? as i32)
    }

    /// A signed number of 33 bits.
    #[tactic(auto, unfolding(crate::specs::Signed::signed33))]
    pub fn signed33(&mut self) -> Result<i64, ReadFault>
        ensures value { Gives result self.new (signed33 self.old) }
        ensures bound { IfOk result (IsWithin (2 ^ 32)) }
        ensures sure { IfErr result (λ e. e ≢ OutOfMemory) }
    {
        let start = self.place;
        self.signed(start, 4, 16)
    }

    /// A signed number of 64 bits.
    #[tactic(auto, unfolding(crate::specs::Signed::signed64))]
    pub fn signed64(&mut self) -> Result<i64, ReadFault>
        ensures value { Gives result self.new (signed64 self.old) }
        ensures sure { IfErr result (λ e. e ≢ OutOfMemory) }
    {
        let start = self.place;
        self.signed(start, 9, 1)
    }

    /// All bytes that are left.
    pub fn remaining(&mut self) -> &'a [u8]
        ensures { remaining self.old ≡ Ok (result.now, self.new) }
    {
        let found = self.bytes;
        self.place += found.len() as u64;
        self.bytes = &[];
        found
    }

    /// The bytes that are left, which stay to be read.
    pub fn left(&self) -> &'a [u8]
        ensures { result.now ≡ self.now.bytes }
    {
        self.bytes
    }

    /// How many bytes are left.
    pub fn len(&self) -> usize
        ensures { result ≡ length self.now.bytes }
    {
        self.bytes.len()
    }
}

/// The unused bits of a last byte repeat its sign.
fn is_last(byte: u8, room: u8) -> bool
    requires few { room ≤ 64 }
    requires low { byte < 128 }
    ensures value { result ≡ last_allowed room byte }
    ensures cases { IsTrue result → (byte < room) ⊎ (128 - room ≤ byte) }
{
    byte < room || 128 - room <= byte
}

/// Seven bits below the others.
fn joined(byte: u8, high: i64) -> i64
    requires more { 128 ≤ byte }
    requires high { FitsSigned w64 (pos 128 *ℤ high) }
    requires fits { FitsSigned w64 (pos (byte - 128) +ℤ (pos 128 *ℤ high)) }
    ensures { result ≡ pos (byte - 128) +ℤ (pos 128 *ℤ high) }
{
    (byte - 128) as i64 + 128 * high
}

/// Seven bits with a sign.
fn digit(byte: u8) -> i64
    requires { byte < 128 }
    ensures { result ≡ signed_digit byte }
{
    if byte < 64 {
        byte as i64
    } else {
        byte as i64 - 128
    }
}
