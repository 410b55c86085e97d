//! The keys of a call on several.

ghost use Rattle.std.specs.Prelude.{◌≡◌, ◌<◌, ◌^◌, ◌==◌, ◌++◌, ◌-◌, [], ◌∷◌, length, is_ok};
ghost use Rattle.std.specs.Prelude.{if◌then◌else◌, slice_get, Some};

use php_graph::Bytes;
use std::alloc::{AllocError, Global};
use std::marker::Model;

/// Keys in their order, as a call on several keys has them. Contracts see the list.
#[derive(Drop)]
pub struct Keys {
    keys: Vec<Bytes>,
}

impl Model for Keys {
    ghost use Rattle.std.specs.Prelude.{List, ℕ, length, ◌<◌, ◌^◌};

    ghost Value = { List (List ℕ) };

    ghost view = { λ keys. keys.keys.items };

    ghost invariant = { λ keys. length keys.keys.items < 2 ^ 32 };
}

impl Keys {
    /// No keys.
    pub fn new(alloc: Global) -> Keys
        ensures { result ≡ [] }
    {
        Keys {
            keys: Vec::new(alloc),
        }
    }

    /// Adds a key at the end. Without memory the keys are unchanged, and the new one is dropped.
    pub fn push(&mut self, key: Bytes) -> Result<(), AllocError>
        requires { length self.old < 2 ^ 32 - 1 }
        ensures { self.new ≡ (if is_ok result then self.old ++ key ∷ [] else self.old) }
    {
        self.keys.push(key)?;
        Ok(())
    }

    /// The number of keys.
    pub fn len(&self) -> u32
        ensures { result ≡ length self.now }
    {
        self.keys.len() as u32
    }

    /// Whether there are none.
    pub fn is_empty(&self) -> bool
        ensures { result ≡ (length self.now == 0) }
    {
        self.keys.is_empty()
    }

    /// The keys.
    pub fn as_slice(&self) -> &[Bytes]
        ensures { result.now ≡ self.now }
    {
        self.keys.as_slice()
    }

    /// The key with this number, from 0.
    pub fn at(&self, i: u32) -> &Bytes
        requires { i < length self.now }
        ensures { slice_get self.now i ≡ Some result.now }
    {
        &self.keys[i as usize]
    }
}
