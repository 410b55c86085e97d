//! Keys with their values, in the order in which they are to be stored.

ghost use Rattle.std.specs.Prelude.{◌≡◌, ◌<◌, ◌==◌, length, option_map, slice_get, Some};

use apcu_model::Pairs;
use php_graph::Graph;
use std::marker::Model;

/// Keys with their values, in the order in which they are to be stored; a key may occur several
/// times. Contracts see the list of the records.
#[derive(Drop)]
pub struct Bundle {
    pub(crate) records: Pairs,
}

impl Model for Bundle {
    ghost use Rattle.std.specs.Prelude.{List, length, ◌<◌, ◌^◌};
    ghost use Rattle.preload_set.specs.Bundle.{Record};

    ghost Value = { List Record };

    ghost view = { λ b. b.records };

    ghost invariant = { λ b. length b.records < 2 ^ 32 };
}

impl Bundle {
    /// The number of records.
    pub fn len(&self) -> u32
        ensures { result ≡ length self.now }
    {
        self.records.len()
    }

    /// Whether there are none.
    pub fn is_empty(&self) -> bool
        ensures { result ≡ (length self.now == 0) }
    {
        self.records.is_empty()
    }

    /// The key of a record, counted from 0.
    pub fn key(&self, i: u32) -> &[u8]
        requires { i < length self.now }
        ensures { option_map (λ r. r.0) (slice_get self.now i) ≡ Some result.now }
    {
        self.records.at(i).0.as_slice()
    }

    /// The value of a record, counted from 0.
    pub fn value(&self, i: u32) -> &Graph
        requires { i < length self.now }
        ensures { option_map (λ r. r.1) (slice_get self.now i) ≡ Some result.now }
    {
        self.records.at(i).1
    }
}
