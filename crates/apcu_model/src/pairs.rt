//! The keys and values of a store of several.

ghost use Rattle.std.specs.Prelude.{◌≡◌, ◌<◌, ◌^◌, ◌==◌, ◌++◌, ◌-◌, [], ◌∷◌, length, is_ok};
ghost use Rattle.std.specs.Prelude.{if◌then◌else◌, slice_get, Some};

use php_graph::{Bytes, Graph};
use std::alloc::{AllocError, Global};
use std::marker::Model;

/// Keys with their values in their order, as a store of several has them. Contracts see the list.
#[derive(Drop)]
pub struct Pairs {
    pairs: Vec<(Bytes, Graph)>,
}

impl Model for Pairs {
    ghost use Rattle.std.specs.Prelude.{List, ℕ, length, ◌<◌, ◌^◌};
    ghost use Rattle.php_graph.specs.declared.kind.Kind.{Kind};

    ghost Value = { List (List ℕ × List Kind) };

    ghost view = { λ pairs. pairs.pairs.items };

    ghost invariant = { λ pairs. length pairs.pairs.items < 2 ^ 32 };
}

impl Pairs {
    /// No pairs.
    pub fn new(alloc: Global) -> Pairs
        ensures { result ≡ [] }
    {
        Pairs {
            pairs: Vec::new(alloc),
        }
    }

    /// Adds a pair at the end. Without memory the pairs are unchanged, and the new one is dropped.
    pub fn push(&mut self, key: Bytes, value: Graph) -> Result<(), AllocError>
        requires { length self.old < 2 ^ 32 - 1 }
        ensures { self.new ≡ (if is_ok result then self.old ++ (key, value) ∷ [] else self.old) }
    {
        self.pairs.push((key, value))?;
        Ok(())
    }

    /// The number of pairs.
    pub fn len(&self) -> u32
        ensures { result ≡ length self.now }
    {
        self.pairs.len() as u32
    }

    /// Whether there are none.
    pub fn is_empty(&self) -> bool
        ensures { result ≡ (length self.now == 0) }
    {
        self.pairs.is_empty()
    }

    /// The pairs.
    pub fn as_slice(&self) -> &[(Bytes, Graph)]
        ensures { result.now ≡ self.now }
    {
        self.pairs.as_slice()
    }

    /// The key and the value with this number, from 0.
    pub fn at(&self, i: u32) -> (&Bytes, &Graph)
        requires { i < length self.now }
        ensures { slice_get self.now i ≡ Some (result.0.now, result.1.now) }
    {
        let pair = &self.pairs[i as usize];
        (&pair.0, &pair.1)
    }
}
