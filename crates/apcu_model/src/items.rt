//! The results of iterators: a row's fields, a list of such rows, and a step.

ghost use Rattle.std.specs.Prelude.{◌≡◌, ◌<◌, ◌^◌, ◌==◌, ◌++◌, ◌-◌, [], ◌∷◌, length, is_ok};
ghost use Rattle.std.specs.Prelude.{if◌then◌else◌, slice_get, Some};

use php_graph::{Bytes, Graph};
use std::alloc::{AllocError, Global};
use std::marker::Model;

/// The fields of a row that an iterator returns.
#[derive(Drop)]
pub struct ItemRow {
    pub key: Bytes,
    /// The value, if it is selected.
    pub value: Option<Graph>,
    /// How often it was fetched.
    pub hits: u64,
    /// When its value was last changed, in seconds.
    pub mtime: u64,
    /// When it was created, in seconds.
    pub ctime: u64,
    /// When it was dropped, in seconds, for a removed row; otherwise 0.
    pub dtime: u64,
    /// When it was last used, in seconds.
    pub atime: u64,
    /// The size of its block in bytes.
    pub size: u64,
    /// How many seconds it lives after its creation; 0 is no limit.
    pub ttl: u32,
}

/// What an iterator returns in one step, in order. Contracts see the list.
#[derive(Drop)]
pub struct Items {
    rows: Vec<ItemRow>,
}

impl Model for Items {
    ghost use Rattle.std.specs.Prelude.{List, length, ◌<◌, ◌^◌};
    ghost use Rattle.apcu_model.specs.declared.items.ItemRow.{ItemRow};

    ghost Value = { List ItemRow };

    ghost view = { λ items. items.rows.items };

    ghost invariant = { λ items. length items.rows.items < 2 ^ 32 };
}

impl Items {
    /// No items.
    pub fn new(alloc: Global) -> Items
        ensures { result ≡ [] }
    {
        Items {
            rows: Vec::new(alloc),
        }
    }

    /// The items of this list. It allocates no memory.
    pub fn from_vec(rows: Vec<ItemRow>) -> Items
        requires { length rows.items < 2 ^ 32 }
        ensures { result ≡ rows.items }
    {
        Items { rows }
    }

    /// Adds an item at the end. Without memory the items are unchanged, and the new one is dropped.
    pub fn push(&mut self, item: ItemRow) -> Result<(), AllocError>
        requires { length self.old < 2 ^ 32 - 1 }
        ensures { self.new ≡ (if is_ok result then self.old ++ item ∷ [] else self.old) }
    {
        self.rows.push(item)?;
        Ok(())
    }

    /// The number of items.
    pub fn len(&self) -> u32
        ensures { result ≡ length self.now }
    {
        self.rows.len() as u32
    }

    /// Whether there are none.
    pub fn is_empty(&self) -> bool
        ensures { result ≡ (length self.now == 0) }
    {
        self.rows.is_empty()
    }

    /// The items.
    pub fn as_slice(&self) -> &[ItemRow]
        ensures { result.now ≡ self.now }
    {
        self.rows.as_slice()
    }

    /// The item with this number, from 0.
    pub fn at(&self, i: u32) -> &ItemRow
        requires { i < length self.now }
        ensures { slice_get self.now i ≡ Some result.now }
    {
        &self.rows[i as usize]
    }
}

/// One step of an iterator over the active rows, or all removed rows.
#[derive(Drop)]
pub struct Chunk {
    /// The first slot that the step did not reach; the number of slots at the end.
    pub next: u32,
    pub items: Items,
}
