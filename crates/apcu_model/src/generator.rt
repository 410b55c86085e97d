//! Generators: the source of a value that is not found.

ghost use Rattle.std.specs.Prelude.{◌≡◌, ◌-◌, ◌^◌, min, [], ◌∷◌, length};
ghost use Rattle.apcu_model.specs.Levels.{EntryLevel, Generator};
ghost use Rattle.apcu_model.specs.GeneratorKinds.{generator_of};

use php_graph::{Bytes, Graph};
use std::marker::Model;

/// The source of the value of `apcu_entry`: an entry looks up its key, and evaluates the generator
/// inside it if no live row has the key. Contracts see the keys and times to live from the
/// outermost inwards, and the value inside the innermost.
#[cycle(generator)]
pub struct Gen {
    kind: GenKind,
}

/// The outermost part of a generator.
#[cycle(generator)]
#[derive(Drop)]
pub enum GenKind {
    /// This value.
    Value(Graph),
    /// `apcu_entry` of a key, with the time to live of a new row, in seconds, 0 for no limit, and
    /// with a generator.
    Entry(Bytes, u32, Box<Gen>),
}

impl Model for Gen {
    ghost use Rattle.std.specs.Prelude.{length};
    ghost use Rattle.std.proofs.Common.{arith};
    ghost use Rattle.apcu_model.specs.Levels.{Generator};

    ghost Value = { Generator };

    ghost use Rattle.apcu_model.specs.GeneratorKinds.{generator_of};

    ghost view = { λ a. generator_of a.kind };

    ghost size = { λ g. length g.levels };

    ghost size_decreases = { λ a h. Prim.grind arith };
}

impl Drop for Gen {
    fn drop(self) {
        let Gen { kind: _kind } = self;
    }
}

impl Gen {
    /// The generator of this value.
    pub fn value(value: Graph) -> Gen
        ensures { result ≡ record { levels = []; literal = value } }
    {
        Gen {
            kind: GenKind::Value(value),
        }
    }

    /// An `apcu_entry` of this key around a generator. A new row lives for `ttl` seconds; 0 is no
    /// limit.
    pub fn entry(key: Bytes, ttl: u32, inner: Box<Gen>) -> Gen
        ensures levels { let level : EntryLevel = record { key = key; ttl = ttl } in
            result.levels ≡ level ∷ inner.value.levels }
        ensures literal { result.literal ≡ inner.value.literal }
    {
        Gen {
            kind: GenKind::Entry(key, ttl, inner),
        }
    }

    /// Its outermost part.
    pub fn kind(&self) -> &GenKind
        ensures { generator_of result.now ≡ self.now }
    {
        &self.kind
    }

    /// The number of its nested entries. The count stops at the maximum of a `u32`.
    pub fn entries(&self) -> u32
        ensures { result ≡ min (length self.now.levels) (2 ^ 32 - 1) }
    {
        match &self.kind {
            GenKind::Value(_) => 0,
            GenKind::Entry(_, _, inner) => inner.entries().saturating_add(1),
        }
    }
}
