//! The keys of arrays.

ghost use Rattle.std.specs.Prelude.{◌≡◌, ◌<◌, ◌^◌, IfOk};
ghost use Rattle.php_graph.specs.Building.{is_name};
ghost use Rattle.php_graph.specs.Graph.{FitsKey};
ghost use Rattle.php_graph.specs.Keys.{key_mark};
ghost use Rattle.php_graph.specs.Size.{key_cells};

use crate::bytes::Bytes;
use crate::numbers::{TOP_BIT, hash_of};
use std::alloc::{AllocError, Global};

/// A key of an array: a 64-bit integer, or a byte string.
#[derive(Debug, Drop, PartialEq, Eq, PartialOrd, Ord)]
pub enum Key {
    Int(i64),
    Str(Bytes),
}

impl Key {
    // An equal key.
    pub(crate) fn try_copy(&self, alloc: Global) -> Result<Key, AllocError>
        ensures { IfOk result (λ copy. copy ≡ self.now) }
    {
        match self {
            Key::Int(number) => Ok(Key::Int(*number)),
            Key::Str(bytes) => Ok(Key::Str(bytes.try_copy(alloc)?)),
        }
    }

    // The words of the key in an image.
    pub(crate) fn cells(&self) -> u64
        ensures cells { result ≡ key_cells self.now }
        ensures small { result < 2 ^ 30 }
    {
        match self {
            Key::Int(_) => 2,
            Key::Str(bytes) => 1 + bytes.cells(),
        }
    }

    // Each key is a number of 64 bits, or a byte string.
    pub(crate) fn check(&self)
        ensures { FitsKey self.now }
    {
        match self {
            Key::Int(number) => {
                let _number = *number;
            }
            Key::Str(bytes) => {
                let _bytes = bytes.as_slice();
            }
        }
    }

    // The key's mark. Equal keys have equal marks, and few others do. Marks of integers rise as the
    // integers do.
    pub(crate) fn mark(&self) -> u64
        ensures { result ≡ key_mark self.now }
    {
        match self {
            Key::Int(number) => number.cast_unsigned().wrapping_add(TOP_BIT),
            Key::Str(bytes) => hash_of(bytes.as_slice()),
        }
    }

    // Whether it is a byte string, as the names of properties are.
    pub(crate) fn is_name(&self) -> bool
        ensures { result ≡ is_name self.now }
    {
        match self {
            Key::Int(_) => false,
            Key::Str(_) => true,
        }
    }
}
