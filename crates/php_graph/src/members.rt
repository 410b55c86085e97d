//! The members of an array.

ghost use Rattle.std.specs.Prelude.{◌≡◌, ◌<◌, length, slice_set, [], IsTrue, ◌↔◌, slice_get, Some};
ghost use Rattle.std.specs.Prelude.{None, IfOk, OnOk, IfErr, OnErr, ◌+◌, ◌^◌, ◌∷◌, ◌++◌};
ghost use Rattle.php_graph.specs.declared.key.Key.{Key};
ghost use Rattle.php_graph.specs.declared.child.Child.{Child};
ghost use Rattle.php_graph.specs.Graph.{lowered_members, holds_key};
ghost use Rattle.php_graph.specs.Keys.{HasKeys, HasMarks};
ghost use Rattle.php_graph.specs.PlaceOffsets.{last_own};
ghost use Rattle.std.specs.Prelude.{map, sum_by};
ghost use Rattle.php_graph.specs.Size.{key_cells};

use crate::child::Child;
use crate::container::{insert_copy, insert_mark};
use crate::key::Key;
use std::alloc::{AllocError, Global};
use std::collections::BTreeSet;
use std::marker::Model;

/// The members of an array in their order: each key with what it holds.
#[derive(Debug, Drop)]
pub struct Members {
    pub(crate) items: Vec<(Key, Child)>,
}

impl Model for Members {
    ghost use Rattle.std.specs.Prelude.{List, ◌<◌, ◌^◌, length};
    ghost use Rattle.php_graph.specs.declared.key.Key.{Key};
    ghost use Rattle.php_graph.specs.declared.child.Child.{Child};

    ghost Value = { List (Key × Child) };

    ghost view = { λ a. a.items.items };

    ghost invariant = { λ a. length a.items.items < 2 ^ 32 };
}

impl Members {
    // No members. This allocates no memory.
    pub(crate) fn new(alloc: Global) -> Members
        ensures { result ≡ [] }
    {
        Members {
            items: Vec::new(alloc),
        }
    }

    /// These members. It allocates no memory.
    pub fn from_vec(items: Vec<(Key, Child)>) -> Members
        requires { length items.items < 2 ^ 32 }
        ensures { result ≡ items.items }
    {
        Members { items }
    }

    /// Changes what the member with this number holds.
    pub fn set_child(&mut self, i: u32, child: Child)
        requires { i < length self.old }
        ensures { (m : Key × Child) → slice_get self.old i ≡ Some m
            → self.new ≡ slice_set self.old i (m.0, child) }
    {
        let item = &mut self.items[i as usize];
        item.1 = child;
    }

    /// The number of members.
    pub fn len(&self) -> u32
        ensures { result ≡ length self.now }
    {
        self.items.len() as u32
    }

    /// Whether there are none.
    pub fn is_empty(&self) -> bool
        ensures { IsTrue result ↔ (self.now ≡ []) }
    {
        self.items.is_empty()
    }

    /// The member with this number, from 0.
    pub fn at(&self, i: u32) -> (&Key, Child)
        requires { i < length self.now }
        ensures { slice_get self.now i ≡ Some (result.0.now, result.1) }
    {
        let item = &self.items[i as usize];
        (&item.0, item.1)
    }

    // Adds a member. If there is no memory, returns the key.
    pub(crate) fn push(&mut self, key: Key, child: Child) -> Result<(), Key>
        requires { length self.old + 1 < 2 ^ 32 }
        ensures ok { OnOk result (self.new ≡ self.old ++ (key, child) ∷ []) }
        ensures err { OnErr result (self.new ≡ self.old) }
        ensures returned { IfErr result (λ returned. returned ≡ key) }
    {
        match self.items.push((key, child)) {
            Ok(()) => Ok(()),
            Err(failed) => {
                let (key, _) = failed.value;
                Err(key)
            }
        }
    }

    // The keys' marks.
    pub(crate) fn mark_set(&self, alloc: Global) -> Result<BTreeSet<u64>, AllocError>
        ensures { IfOk result (HasMarks (map (λ m. m.0) self.now)) }
    {
        let mut marks = BTreeSet::new(alloc);
        for item in &self.items {
            insert_mark(&mut marks, item.0.mark())?;
        }
        Ok(marks)
    }

    // The keys, for quick look-ups.
    pub(crate) fn key_set(&self, alloc: Global) -> Result<BTreeSet<Key>, AllocError>
        ensures { IfOk result (HasKeys (map (λ m. m.0) self.now)) }
    {
        let mut set = BTreeSet::new(alloc);
        for item in &self.items {
            insert_copy(&mut set, alloc, &item.0)?;
        }
        Ok(set)
    }

    // Whether it has the key.
    pub(crate) fn has_key(&self, key: &Key) -> bool
        ensures { result ≡ holds_key (map (λ m. m.0) self.now) key.now }
    {
        for item in &self.items {
            if *key == item.0 {
                return true;
            }
        }
        false
    }

    // The words of the members in an image.
    pub(crate) fn cells(&self) -> u64
        requires { sum_by (λ m. 1 + key_cells m.0) self.now < 2 ^ 62 }
        ensures { result ≡ sum_by (λ m. 1 + key_cells m.0) self.now }
    {
        let mut cells = 0;
        for item in &self.items {
            cells += 1 + item.0.cells();
        }
        cells
    }

    // Equal members.
    pub(crate) fn try_copy(&self, alloc: Global) -> Result<Members, AllocError>
        ensures { IfOk result (λ copy. copy ≡ self.now) }
    {
        let mut items = Vec::new(alloc);
        for item in &self.items {
            items.push((item.0.try_copy(alloc)?, item.1))?;
        }
        Ok(Members { items })
    }

    // The same members in a graph whose numbers are lowered by this amount. None if one of them is
    // none of its places.
    pub(crate) fn lowered(&self, alloc: Global, by: u32) -> Result<Option<Members>, AllocError>
        ensures { IfOk result (λ lowered. lowered ≡ lowered_members by self.now) }
    {
        let mut items = Vec::new(alloc);
        for item in &self.items {
            let Some(child) = item.1.lowered(by) else {
                return Ok(None);
            };
            items.push((item.0.try_copy(alloc)?, child))?;
        }
        Ok(Some(Members { items }))
    }

    // Whether these are the same members in the same order.
    pub(crate) fn same(&self, other: &Members) -> bool
        ensures { IsTrue result ↔ (self.now ≡ other.now) }
    {
        self.items == other.items
    }

    // The place of the last one that is written here.
    pub(crate) fn last_own(&self) -> Option<u32>
        ensures { result ≡ last_own None (map (λ m. m.1) self.now) }
    {
        let mut last = None;
        for item in &self.items {
            if let Child::Own(place) = item.1 {
                last = Some(place);
            }
        }
        last
    }
}
