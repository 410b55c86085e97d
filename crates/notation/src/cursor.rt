//! A place in bytes that are read.

ghost use Rattle.std.specs.Prelude.{◌≡◌, ℕ, ◌+◌, ◌<◌, ◌≤◌, length, List, take, drop, slice_get};
ghost use Rattle.std.specs.Prelude.{IsSome};
ghost use Rattle.notation.specs.Place.{Standing, left};

use std::marker::Model;

/// A place in a row of bytes, at which reading continues. Contracts see the bytes and the place,
/// which is never past their end.
#[derive(Drop)]
pub struct Cursor<'a> {
    bytes: &'a [u8],
    place: usize,
}

impl<'a> Model for Cursor<'a> {
    ghost use Rattle.std.specs.Prelude.{ℕ, List, ◌≤◌, length};
    ghost use Rattle.notation.specs.Place.{Standing};

    ghost Value = { Standing };

    ghost view = { λ c. record { bytes = c.bytes.now; place = c.place } };

    ghost invariant = { λ c. c.place ≤ length c.bytes.now };
}

impl<'a> Cursor<'a> {
    /// At the first byte.
    pub fn new(bytes: &'a [u8]) -> Cursor<'a>
        ensures { result ≡ record { bytes = bytes.now; place = 0 } }
    {
        Cursor { bytes, place: 0 }
    }

    /// The number of bytes that were read.
    pub fn place(&self) -> u64
        ensures place { result ≡ self.now.place }
        ensures within { result ≤ length self.now.bytes }
    {
        self.place as u64
    }

    /// The next byte, or `None` at the end of the bytes.
    pub fn peek(&self) -> Option<u8>
        ensures { result ≡ slice_get (left self.now) 0 }
    {
        self.bytes.get(self.place).copied()
    }

    /// Skips the next byte.
    pub fn skip(&mut self)
        requires { IsSome (slice_get (left self.old) 0) }
        ensures { self.new ≡ record self.old { place = self.old.place + 1 } }
    {
        self.place += 1;
    }

    // The bytes that are still to be read.
    pub(crate) fn rest(&self) -> &'a [u8]
        ensures rest { result.now ≡ left self.now }
        ensures within { self.now.place ≤ length self.now.bytes }
    {
        &self.bytes[self.place..]
    }

    // Skips to where `count` bytes are left.
    pub(crate) fn leave(&mut self, count: usize)
        requires { count ≤ length (left self.old) }
        ensures place { self.new.place + count ≡ length self.old.bytes }
        ensures bytes { self.new.bytes ≡ self.old.bytes }
    {
        self.place = self.bytes.len() - count;
    }

    // The place at which `count` bytes are left.
    pub(crate) fn place_before(&self, count: usize) -> u64
        requires { count ≤ length self.now.bytes }
        ensures { result + count ≡ length self.now.bytes }
    {
        (self.bytes.len() - count) as u64
    }
}
