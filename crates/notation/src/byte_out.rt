//! Bytes that are being written.

ghost use Rattle.std.specs.Prelude.{◌≡◌, ℕ, ◌≤◌, List, [], ◌++◌, length, take, OnOk, OnErr};

use std::alloc::{AllocError, Global};
use std::marker::Model;
use std::mem::replace;

/// Bytes that are being written. Contracts see them as a list.
#[derive(Debug, Drop)]
pub struct ByteOut {
    bytes: Vec<u8>,
}

impl Model for ByteOut {
    ghost use Rattle.std.specs.Prelude.{ℕ, List};

    ghost Value = { List ℕ };

    ghost view = { λ o. o.bytes.items };
}

impl ByteOut {
    /// No bytes. Nothing is allocated yet.
    pub fn new(alloc: Global) -> ByteOut
        ensures { result ≡ [] }
    {
        ByteOut {
            bytes: Vec::new(alloc),
        }
    }

    /// Appends these bytes; without memory for them it is unchanged.
    pub fn push(&mut self, from: &[u8]) -> Result<(), AllocError>
        ensures ok { OnOk result (self.new ≡ self.old ++ from.now) }
        ensures err { OnErr result (self.new ≡ self.old) }
    {
        self.bytes.extend_from_slice(from)
    }

    /// Bytes that were written elsewhere.
    pub fn from_vec(bytes: Vec<u8>) -> ByteOut
        ensures { result ≡ bytes.items }
    {
        ByteOut { bytes }
    }

    /// Moves the bytes out, for a caller that writes into their memory and returns them.
    pub fn take(&mut self) -> Vec<u8>
        ensures bytes { result.items ≡ self.old }
        ensures left { self.new ≡ [] }
    {
        let none = Vec::new(self.alloc());
        replace(&mut self.bytes, none)
    }

    /// The bytes.
    pub fn as_slice(&self) -> &[u8]
        ensures { result.now ≡ self.now }
    {
        let bytes: &[u8] = &self.bytes;
        bytes
    }

    /// The allocator of the bytes, for a caller that writes them and needs memory of its own for
    /// it.
    pub fn alloc(&self) -> Global {
        *self.bytes.allocator()
    }

    /// Keeps the first `len` bytes.
    pub fn cut(&mut self, len: usize)
        requires { len ≤ length self.old }
        ensures { self.new ≡ take len self.old }
    {
        self.bytes.truncate(len);
    }
}
