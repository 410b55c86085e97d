//! Byte strings that take no memory of their own.

ghost use Rattle.std.specs.Prelude.{◌≡◌, length, ◌≤◌};
ghost use Rattle.byte_box.specs.ByteStrings.{AreBytes};

use std::marker::Model;

/// The most bytes of a `Short`: of a string's sixteen, one tells its form and one their number.
pub(crate) const MOST: usize = 14;

/// A byte string of at most fourteen bytes, in place.
#[derive(Drop)]
pub(crate) struct Short {
    len: u8,
    bytes: [u8; MOST],
}

impl Model for Short {
    ghost use Rattle.std.specs.Prelude.{List, ℕ, take, ◌≤◌};
    ghost use Rattle.byte_box.specs.ByteStrings.{AreBytes};

    ghost Value = { List ℕ };

    ghost view = { λ a. take a.len a.bytes };

    ghost invariant = { λ a. (a.len ≤ 14) × AreBytes (take a.len a.bytes) };
}

impl Short {
    /// A copy of these bytes.
    pub(crate) fn of(from: &[u8]) -> Short
        requires { length from.now ≤ 14 }
        ensures { result ≡ from.now }
    {
        let mut bytes = [0; MOST];
        bytes[..from.len()].copy_from_slice(from);
        Short {
            len: from.len() as u8,
            bytes,
        }
    }

    /// The bytes.
    pub(crate) fn as_slice(&self) -> &[u8]
        ensures bytes { result.now ≡ self.now }
        ensures fits { AreBytes self.now }
    {
        &self.bytes[..self.len as usize]
    }

    /// The number of bytes.
    pub(crate) fn len(&self) -> usize
        ensures { result ≡ length self.now }
    {
        self.len as usize
    }
}
