//! Byte strings.

ghost use Rattle.std.specs.Prelude.{◌≡◌, IfOk, length, ◌^◌, ◌<◌, ◌==◌, ◌≤◌};
ghost use Rattle.std.specs.Cmp.Lexicographic.{pointwise, slice_cmp};
ghost use Rattle.std.specs.Ordering.{nat_cmp, as_partial_cmp};
ghost use Rattle.std.specs.Cmp.Rules.{comparing};
ghost use Rattle.std.specs.Cmp.{partial_order_from_own_ties};
ghost use Rattle.std.proofs.Common.{rules};
ghost use Rattle.byte_box.specs.ByteStrings.{AreBytes};

use crate::block::{Base, Deed};
use crate::short::{self, Short};
use std::alloc::{AllocError, Global};
use std::cmp::Ordering;
use std::fmt;
use std::marker::Model;
use std::mem::ManuallyDrop;

/// A byte string of fewer than 2^32 bytes, in sixteen bytes: the bytes themselves if they are
/// fourteen or fewer, and otherwise the address of their block, their number, and how much more
/// room it has.
pub struct ByteBox {
    form: Form,
}

// The place of the bytes. What is before the address has to fit in eight bytes with the tag, or a
// string takes 24: so the capacity is stored in 16 bits, as what it has beyond the bytes.
enum Form {
    Short(Short),
    Long {
        room_is_told: bool,
        spare: u16,
        len: u32,
        base: Base<u8>,
        alloc: Global,
        deed: Deed<u8, Global>,
    },
}

impl Model for ByteBox {
    ghost use Rattle.std.specs.Prelude.{List, ℕ};

    ghost Value = { List ℕ };

    ghost use Rattle.byte_box.specs.Forms.{bytes_of, IsSound};

    ghost view = { λ a. bytes_of a.form };

    ghost invariant = { λ a. IsSound a.form };
}

impl ByteBox {
    /// These bytes. It allocates no memory. Fourteen and fewer are copied into the string, and
    /// their block is freed. A block with room for 2^16 bytes or more that it does not use is first
    /// shrunk to what it holds; if the allocator refuses even that, it is never freed.
    pub fn from_vec(items: Vec<u8>) -> ByteBox
        requires { length items.items < 2 ^ 32 }
        ensures { result ≡ items.items }
    {
        if items.len() <= short::MOST {
            return ByteBox {
                form: Form::Short(Short::of(items.as_slice())),
            };
        }
        in_block(items)
    }

    /// A copy of these bytes. Fourteen and fewer take no memory.
    pub fn of(alloc: Global, from: &[u8]) -> Result<ByteBox, AllocError>
        requires { length from.now < 2 ^ 32 }
        ensures { IfOk result (λ bytes. bytes ≡ from.now) }
    {
        if from.len() <= short::MOST {
            return Ok(ByteBox {
                form: Form::Short(Short::of(from)),
            });
        }
        let items = Vec::from_slice(alloc, from)?;
        Ok(in_block(items))
    }

    /// The bytes.
    pub fn as_slice(&self) -> &[u8]
        ensures bytes { result.now ≡ self.now }
        ensures fits { AreBytes self.now }
    {
        match &self.form {
            Form::Short(short) => short.as_slice(),
            Form::Long {
                len,
                base,
                deed,
                ..
            } => deed.read(*base, *len as usize),
        }
    }

    /// The number of bytes.
    pub fn len(&self) -> usize
        ensures { result ≡ length self.now }
    {
        match &self.form {
            Form::Short(short) => short.len(),
            Form::Long { len, .. } => *len as usize,
        }
    }

    /// Whether there is none.
    pub fn is_empty(&self) -> bool
        ensures { result ≡ (length self.now == 0) }
    {
        self.len() == 0
    }
}

// The string that keeps the block of these bytes.
fn in_block(items: Vec<u8>) -> ByteBox
    requires many { 14 < length items.items }
    requires few { length items.items < 2 ^ 32 }
    ensures { result ≡ items.items }
{
    let items = narrowed(items);
    let base = Base {
        ptr: items.as_ptr(),
    };
    let len = items.len() as u32;
    let (room_is_told, spare) = match u16::try_from(items.capacity() - items.len()) {
        Ok(spare) => (true, spare),
        Err(_) => (false, 0),
    };
    let alloc = *items.allocator();
    let deed = Deed::of(items);
    ByteBox {
        form: Form::Long {
            room_is_told,
            spare,
            len,
            base,
            alloc,
            deed,
        },
    }
}

// The same bytes, if they can be put in a block whose further room is counted in 16 bits.
fn narrowed(mut items: Vec<u8>) -> Vec<u8>
    ensures { result.items ≡ items.items }
{
    if items.capacity() - items.len() > usize::from(u16::MAX) {
        items.shrink_to_fit();
    }
    items
}

impl Drop for ByteBox {
    fn drop(self) {
        let ByteBox { form } = self;
        match form {
            Form::Short(_) => {}
            Form::Long {
                room_is_told,
                spare,
                len,
                base,
                alloc,
                deed,
            } => {
                if room_is_told {
                    deed.free(&alloc, base, len as usize + usize::from(spare));
                } else {
                    let _nothing = unsafe { ManuallyDrop::new_unchecked(deed) };
                }
            }
        }
    }
}

impl fmt::Debug for ByteBox {
    fn fmt<W: fmt::Write>(&self, f: &mut fmt::Formatter<W>) -> fmt::Result {
        fmt::Debug::fmt(&self.as_slice(), f)
    }
}

impl PartialEq for ByteBox {
    ghost eq = { pointwise ◌==◌ };

    ghost laws = { Prim.search (comparing, rules) };

    fn eq(&self, other: &ByteBox) -> bool {
        self.as_slice() == other.as_slice()
    }
}

impl Eq for ByteBox {
    ghost laws = { Prim.search (comparing, rules) };
}

impl Ord for ByteBox {
    ghost cmp = { slice_cmp nat_cmp };

    ghost total = { Prim.search (comparing, rules) };

    ghost matches_partial_cmp = { Prim.search (comparing, rules) };

    ghost matches_eq = { Prim.search (comparing, rules) };

    fn cmp(&self, other: &ByteBox) -> Ordering {
        self.as_slice().cmp(other.as_slice())
    }
}

impl PartialOrd for ByteBox {
    ghost partial_cmp = { as_partial_cmp (slice_cmp nat_cmp) };

    ghost laws = { partial_order_from_own_ties (Prim.search (comparing, rules))
        (Prim.search (comparing, rules)) };

    fn partial_cmp(&self, other: &ByteBox) -> Option<Ordering> {
        Some(self.cmp(other))
    }
}
