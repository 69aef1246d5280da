ghost use Rattle.std.specs.Prelude.{◌≡◌, length};
ghost use Rattle.std.specs.Option.{option_map};
ghost use Rattle.std.specs.Int.{cast_unsigned, w32};
ghost use Rattle.fuse_wire.specs.Bytes.{le, GivesNumber, GivesBytes, GivesText};

use byteorder::{ByteOrder, LittleEndian};
use std::marker::Model;

/// Reads the fields of a message, the first one first. Contracts see the bytes that are left.
#[derive(Drop)]
pub struct Fields<'a> {
    rest: &'a [u8],
}

impl<'a> Model for Fields<'a> {
    ghost use Rattle.std.specs.Prelude.{List, ℕ};

    ghost Value = { List ℕ };

    ghost view = { λ a. a.rest.now };
}

// The number that two bytes stand for.
fn u16_of(bytes: &[u8]) -> u16
    requires { length bytes.now ≡ 2 }
    ensures { bytes.now ≡ le 2 result }
{
    LittleEndian::read_u16(bytes)
}

// The number that four bytes stand for.
fn u32_of(bytes: &[u8]) -> u32
    requires { length bytes.now ≡ 4 }
    ensures { bytes.now ≡ le 4 result }
{
    LittleEndian::read_u32(bytes)
}

// The number that eight bytes stand for.
fn u64_of(bytes: &[u8]) -> u64
    requires { length bytes.now ≡ 8 }
    ensures { bytes.now ≡ le 8 result }
{
    LittleEndian::read_u64(bytes)
}

impl<'a> Fields<'a> {
    /// Begins at the first of these bytes.
    pub fn new(bytes: &'a [u8]) -> Fields<'a>
        ensures { result ≡ bytes.now }
    {
        Fields { rest: bytes }
    }

    /// The next two bytes as a number. `None` where fewer are left, and then nothing changes.
    pub fn u16(&mut self) -> Option<u16>
        ensures { GivesNumber 2 self.old self.new result }
    {
        if self.rest.len() < 2 {
            return None;
        }
        let (prefix, rest) = self.rest.split_at(2);
        self.rest = rest;
        Some(u16_of(prefix))
    }

    /// The next four bytes as a number. `None` where fewer are left, and then nothing changes.
    pub fn u32(&mut self) -> Option<u32>
        ensures { GivesNumber 4 self.old self.new result }
    {
        if self.rest.len() < 4 {
            return None;
        }
        let (prefix, rest) = self.rest.split_at(4);
        self.rest = rest;
        Some(u32_of(prefix))
    }

    /// The next eight bytes as a number. `None` where fewer are left, and then nothing changes.
    pub fn u64(&mut self) -> Option<u64>
        ensures { GivesNumber 8 self.old self.new result }
    {
        if self.rest.len() < 8 {
            return None;
        }
        let (prefix, rest) = self.rest.split_at(8);
        self.rest = rest;
        Some(u64_of(prefix))
    }

    /// The next four bytes as a number in two's complement. `None` where fewer are left, and then
    /// nothing changes.
    pub fn i32(&mut self) -> Option<i32>
        ensures { GivesNumber 4 self.old self.new (option_map (cast_unsigned w32) result) }
    {
        match self.u32() {
            Some(bits) => Some(bits.cast_signed()),
            None => None,
        }
    }

    /// The next `n` bytes. `None` where fewer are left, and then nothing changes.
    pub fn take(&mut self, n: usize) -> Option<&'a [u8]>
        ensures { GivesBytes n self.old self.new (option_map (λ x. x.now) result) }
    {
        if self.rest.len() < n {
            return None;
        }
        let (prefix, rest) = self.rest.split_at(n);
        self.rest = rest;
        Some(prefix)
    }

    /// The bytes before the next NUL, which is passed. `None` where there is none, and then
    /// nothing changes.
    pub fn until_nul(&mut self) -> Option<&'a [u8]>
        ensures { GivesText self.old self.new (option_map (λ x. x.now) result) }
    {
        let len = self.rest.iter().position(|b| *b == 0)?;
        let text = &self.rest[..len];
        self.rest = &self.rest[len + 1..];
        Some(text)
    }

    /// The bytes that are left.
    pub fn rest(&self) -> &'a [u8]
        ensures { result.now ≡ self.now }
    {
        self.rest
    }
}
