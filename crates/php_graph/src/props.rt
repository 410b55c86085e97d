//! The properties of an object.

ghost use Rattle.std.specs.Prelude.{◌≡◌, ◌<◌, List, ℕ, length, slice_set, [], IsTrue, ◌↔◌};
ghost use Rattle.std.specs.Prelude.{slice_get, Some, None, IfOk, OnOk, IfErr, OnErr, ◌+◌, ◌^◌, ◌∷◌};
ghost use Rattle.std.specs.Prelude.{◌++◌, map, sum_by};
ghost use Rattle.php_graph.specs.declared.key.Key.TheVariants.{Str};
ghost use Rattle.php_graph.specs.declared.child.Child.{Child};
ghost use Rattle.php_graph.specs.Graph.{lowered_members, holds_key};
ghost use Rattle.php_graph.specs.Keys.{HasKeys, HasMarks};
ghost use Rattle.php_graph.specs.PlaceOffsets.{last_own};
ghost use Rattle.seg_words.specs.Layout.{words_in};

use crate::bytes::Bytes;
use crate::child::Child;
use crate::container::{insert_copy, insert_mark};
use crate::key::Key;
use crate::numbers::hash_of;
use std::alloc::{AllocError, Global};
use std::collections::BTreeSet;
use std::marker::Model;

/// The properties of an object in their order: each name with what it holds. They are behind a
/// pointer, so that the many places that are no object stay small.
#[derive(Debug, Drop)]
pub struct Props {
    pub(crate) items: Box<Vec<(Bytes, Child)>>,
}

impl Model for Props {
    ghost use Rattle.std.specs.Prelude.{List, ℕ, ◌<◌, ◌^◌, length};
    ghost use Rattle.php_graph.specs.declared.child.Child.{Child};

    ghost Value = { List (List ℕ × Child) };

    ghost view = { λ a. a.items.value.items };

    ghost invariant = { λ a. length a.items.value.items < 2 ^ 32 };
}

impl Props {
    // No properties.
    pub(crate) fn new(alloc: Global) -> Result<Props, AllocError>
        ensures { IfOk result (λ props. props ≡ []) }
    {
        let items = Box::new(alloc, Vec::new(alloc))?;
        Ok(Props { items })
    }

    /// These properties.
    pub fn from_vec(alloc: Global, items: Vec<(Bytes, Child)>) -> Result<Props, AllocError>
        requires { length items.items < 2 ^ 32 }
        ensures { IfOk result (λ props. props ≡ items.items) }
    {
        let items = Box::new(alloc, items)?;
        Ok(Props { items })
    }

    /// Changes what the property with this number holds.
    pub fn set_child(&mut self, i: u32, child: Child)
        requires { i < length self.old }
        ensures { (p : List ℕ × Child) → slice_get self.old i ≡ Some p
            → self.new ≡ slice_set self.old i (p.0, child) }
    {
        let items: &mut Vec<(Bytes, Child)> = &mut self.items;
        let item = &mut items[i as usize];
        item.1 = child;
    }

    /// The number of properties.
    pub fn len(&self) -> u32
        ensures { result ≡ length self.now }
    {
        self.items.len() as u32
    }

    /// Whether there are none.
    pub fn is_empty(&self) -> bool
        ensures { IsTrue result ↔ (self.now ≡ []) }
    {
        self.items.is_empty()
    }

    /// The property with this number, from 0.
    pub fn at(&self, i: u32) -> (&Bytes, Child)
        requires { i < length self.now }
        ensures { slice_get self.now i ≡ Some (result.0.now, result.1) }
    {
        let items: &Vec<(Bytes, Child)> = &self.items;
        let item = &items[i as usize];
        (&item.0, item.1)
    }

    // Adds a property. If there is no memory, returns the name.
    pub(crate) fn push(&mut self, name: Bytes, child: Child) -> Result<(), Bytes>
        requires { length self.old + 1 < 2 ^ 32 }
        ensures ok { OnOk result (self.new ≡ self.old ++ (name, child) ∷ []) }
        ensures err { OnErr result (self.new ≡ self.old) }
        ensures returned { IfErr result (λ returned. returned ≡ name) }
    {
        match self.items.push((name, child)) {
            Ok(()) => Ok(()),
            Err(failed) => {
                let (name, _) = failed.value;
                Err(name)
            }
        }
    }

    // The names' marks.
    pub(crate) fn mark_set(&self, alloc: Global) -> Result<BTreeSet<u64>, AllocError>
        ensures { IfOk result (HasMarks (map (λ p. Str p.0) self.now)) }
    {
        let mut marks = BTreeSet::new(alloc);
        let items: &Vec<(Bytes, Child)> = &self.items;
        for item in items {
            insert_mark(&mut marks, hash_of(item.0.as_slice()))?;
        }
        Ok(marks)
    }

    // The names, for quick look-ups.
    pub(crate) fn key_set(&self, alloc: Global) -> Result<BTreeSet<Key>, AllocError>
        ensures { IfOk result (HasKeys (map (λ p. Str p.0) self.now)) }
    {
        let mut set = BTreeSet::new(alloc);
        let items: &Vec<(Bytes, Child)> = &self.items;
        for item in items {
            let name = Key::Str(item.0.try_copy(alloc)?);
            insert_copy(&mut set, alloc, &name)?;
        }
        Ok(set)
    }

    // Whether it has the name.
    pub(crate) fn has_name(&self, name: &Bytes) -> bool
        ensures { result ≡ holds_key (map (λ p. Str p.0) self.now) (Str name.now) }
    {
        let items: &Vec<(Bytes, Child)> = &self.items;
        for item in items {
            if *name == item.0 {
                return true;
            }
        }
        false
    }

    // The words of the properties in an image.
    pub(crate) fn cells(&self) -> u64
        requires { sum_by (λ p. 2 + words_in (length p.0)) self.now < 2 ^ 62 }
        ensures { result ≡ sum_by (λ p. 2 + words_in (length p.0)) self.now }
    {
        let items: &Vec<(Bytes, Child)> = &self.items;
        let mut cells = 0;
        for item in items {
            cells += 2 + item.0.cells();
        }
        cells
    }

    // Equal properties.
    pub(crate) fn try_copy(&self, alloc: Global) -> Result<Props, AllocError>
        ensures { IfOk result (λ copy. copy ≡ self.now) }
    {
        let from: &Vec<(Bytes, Child)> = &self.items;
        let mut items = Vec::new(alloc);
        for item in from {
            items.push((item.0.try_copy(alloc)?, item.1))?;
        }
        let items = Box::new(alloc, items)?;
        Ok(Props { items })
    }

    // The same properties in a graph whose numbers are lowered by this amount. None if one of them
    // is none of its places.
    pub(crate) fn lowered(&self, alloc: Global, by: u32) -> Result<Option<Props>, AllocError>
        ensures { IfOk result (λ lowered. lowered ≡ lowered_members by self.now) }
    {
        let from: &Vec<(Bytes, Child)> = &self.items;
        let mut items = Vec::new(alloc);
        for item in from {
            let Some(child) = item.1.lowered(by) else {
                return Ok(None);
            };
            items.push((item.0.try_copy(alloc)?, child))?;
        }
        let items = Box::new(alloc, items)?;
        Ok(Some(Props { items }))
    }

    // Whether these are the same properties in the same order.
    pub(crate) fn same(&self, other: &Props) -> bool
        ensures { IsTrue result ↔ (self.now ≡ other.now) }
    {
        self.items == other.items
    }

    // The place of the last one that is written here.
    pub(crate) fn last_own(&self) -> Option<u32>
        ensures { result ≡ last_own None (map (λ m. m.1) self.now) }
    {
        let mut last = None;
        let items: &Vec<(Bytes, Child)> = &self.items;
        for item in items {
            if let Child::Own(place) = item.1 {
                last = Some(place);
            }
        }
        last
    }
}
