//! Byte strings.

ghost use Rattle.std.specs.Prelude.{◌≡◌, IfOk, length, ◌^◌, ◌<◌, ◌==◌, ◌≤◌};
ghost use Rattle.std.specs.Cmp.Lexicographic.{pointwise, slice_cmp};
ghost use Rattle.std.specs.Ordering.{nat_cmp, as_partial_cmp};
ghost use Rattle.std.specs.Cmp.Rules.{comparing};
ghost use Rattle.std.specs.Cmp.{partial_order_from_own_ties};
ghost use Rattle.std.proofs.Common.{rules};
ghost use Rattle.php_graph.specs.ByteStrings.{AreBytes};

use byte_box::ByteBox;
use seg_words::words_in;
use std::alloc::{AllocError, Global};
use std::cmp::Ordering;
use std::marker::Model;

/// A byte string of fewer than 2^32 bytes, as keys, names, classes and string values are.
#[derive(Debug, Drop)]
pub struct Bytes {
    items: ByteBox,
}

impl Model for Bytes {
    ghost use Rattle.std.specs.Prelude.{List, ℕ};
    ghost use Rattle.php_graph.specs.ByteStrings.{AreBytes};

    ghost Value = { List ℕ };

    ghost view = { λ a. a.items };

    ghost invariant = { λ a. AreBytes a.items };
}

impl Bytes {
    /// These bytes. It allocates no memory.
    pub fn from_vec(items: Vec<u8>) -> Bytes
        requires { length items.items < 2 ^ 32 }
        ensures { result ≡ items.items }
    {
        Bytes {
            items: ByteBox::from_vec(items),
        }
    }

    /// A copy of these bytes.
    pub fn of(alloc: Global, from: &[u8]) -> Result<Bytes, AllocError>
        requires { length from.now < 2 ^ 32 }
        ensures { IfOk result (λ bytes. bytes ≡ from.now) }
    {
        let items = ByteBox::of(alloc, from)?;
        Ok(Bytes { items })
    }

    /// The bytes.
    pub fn as_slice(&self) -> &[u8]
        ensures bytes { result.now ≡ self.now }
        ensures fits { AreBytes self.now }
    {
        self.items.as_slice()
    }

    // Equal bytes.
    pub(crate) fn try_copy(&self, alloc: Global) -> Result<Bytes, AllocError>
        ensures { IfOk result (λ copy. copy ≡ self.now) }
    {
        let items = ByteBox::of(alloc, self.items.as_slice())?;
        Ok(Bytes { items })
    }
}

impl Bytes {
    ghost use Rattle.seg_words.specs.Layout.{words_in};

    // The words of the bytes in an image, eight bytes a word.
    pub(crate) fn cells(&self) -> u64
        ensures cells { result ≡ words_in (length self.now) }
        ensures small { result ≤ 2 ^ 29 }
    {
        u64::from(words_in(self.items.len() as u32))
    }
}

impl PartialEq for Bytes {
    ghost eq = { pointwise ◌==◌ };

    ghost laws = { Prim.search (comparing, rules) };

    fn eq(&self, other: &Bytes) -> bool {
        self.items == other.items
    }
}

impl Eq for Bytes {
    ghost laws = { Prim.search (comparing, rules) };
}

impl Ord for Bytes {
    ghost cmp = { slice_cmp nat_cmp };

    ghost total = { Prim.search (comparing, rules) };

    ghost matches_partial_cmp = { Prim.search (comparing, rules) };

    ghost matches_eq = { Prim.search (comparing, rules) };

    fn cmp(&self, other: &Bytes) -> Ordering {
        self.items.cmp(&other.items)
    }
}

impl PartialOrd for Bytes {
    ghost partial_cmp = { as_partial_cmp (slice_cmp nat_cmp) };

    ghost laws = { partial_order_from_own_ties (Prim.search (comparing, rules))
        (Prim.search (comparing, rules)) };

    fn partial_cmp(&self, other: &Bytes) -> Option<Ordering> {
        Some(self.cmp(other))
    }
}
