//! What is at a place of a graph.

ghost use Rattle.std.specs.Prelude.{◌≡◌, ◌<◌, ◌+◌, ◌^◌, ◌++◌, ◌∷◌, [], length, true, None, IsTrue};
ghost use Rattle.std.specs.Prelude.{◌↔◌, IfOk, OnOk, IfErr, OnErr};
ghost use Rattle.php_graph.specs.Graph.{keys_of, children_of, holds_key, is_array, is_object};
ghost use Rattle.php_graph.specs.Graph.{lowered_kind, FitsKind};
ghost use Rattle.php_graph.specs.Building.{with_member, is_name, is_container};
ghost use Rattle.php_graph.specs.PlaceOffsets.{last_own};
ghost use Rattle.php_graph.specs.Keys.{HasKeys, HasMarks};
ghost use Rattle.php_graph.specs.Size.{cells_of};

use crate::bytes::Bytes;
use crate::child::Child;
use crate::key::Key;
use crate::members::Members;
use crate::props::Props;
use std::alloc::{AllocError, Global};
use std::collections::BTreeSet;

/// What is at a place of a graph.
#[derive(Debug, Drop)]
pub enum Kind {
    Null,
    Bool(bool),
    Int(i64),
    Str(Bytes),
    Array(Members),
    /// An object: its class and its properties.
    Object(Bytes, Props),
    /// The notation's `r:k;`: a place of its own that names the object at place k.
    Same(u32),
}

impl Kind {
    // Whether a container has this key, or an object this name.
    pub(crate) fn has_key(&self, key: &Key) -> bool
        ensures { result ≡ holds_key (keys_of self.now) key.now }
    {
        match self {
            Kind::Array(members) => members.has_key(key),
            Kind::Object(_, props) => match key {
                Key::Int(_) => false,
                Key::Str(name) => props.has_name(name),
            },
            _ => false,
        }
    }

    // The number of members.
    pub(crate) fn members(&self) -> u32 {
        match self {
            Kind::Array(members) => members.len(),
            Kind::Object(_, props) => props.len(),
            _ => 0,
        }
    }

    // The marks of a container's keys.
    pub(crate) fn mark_set(&self, alloc: Global) -> Result<BTreeSet<u64>, AllocError>
        ensures { IfOk result (HasMarks (keys_of self.now)) }
    {
        match self {
            Kind::Array(members) => members.mark_set(alloc),
            Kind::Object(_, props) => props.mark_set(alloc),
            _ => Ok(BTreeSet::new(alloc)),
        }
    }

    // The keys of a container.
    pub(crate) fn key_set(&self, alloc: Global) -> Result<BTreeSet<Key>, AllocError>
        ensures { IfOk result (HasKeys (keys_of self.now)) }
    {
        match self {
            Kind::Array(members) => members.key_set(alloc),
            Kind::Object(_, props) => props.key_set(alloc),
            _ => Ok(BTreeSet::new(alloc)),
        }
    }

    // Whether it has members.
    pub(crate) fn is_container(&self) -> bool
        ensures { result ≡ is_container self.now }
    {
        match self {
            Kind::Array(_) | Kind::Object(_, _) => true,
            _ => false,
        }
    }

    // Whether it is an array.
    pub(crate) fn is_array(&self) -> bool
        ensures { result ≡ is_array self.now }
    {
        match self {
            Kind::Array(_) => true,
            _ => false,
        }
    }

    // Whether it is an object.
    pub(crate) fn is_object(&self) -> bool
        ensures { result ≡ is_object self.now }
    {
        match self {
            Kind::Object(_, _) => true,
            _ => false,
        }
    }

    // Each number is of 64 bits, and each byte string has fewer than 2^32 bytes.
    pub(crate) fn check(&self)
        ensures { children_of self.now ≡ [] → FitsKind self.now }
    {
        match self {
            Kind::Int(number) => {
                let _number = *number;
            }
            Kind::Str(bytes) => {
                let _bytes = bytes.as_slice();
            }
            Kind::Object(class, _) => {
                let _bytes = class.as_slice();
            }
            _ => {}
        }
    }

    // Adds a member to a container. If there is no memory, returns the key.
    pub(crate) fn add(&mut self, key: Key, child: Child) -> Result<(), Key>
        requires room { length (children_of self.old) + 1 < 2 ^ 32 }
        requires named { is_object self.old ≡ true → is_name key ≡ true }
        ensures ok { OnOk result (self.new ≡ with_member self.old key child) }
        ensures err { OnErr result (self.new ≡ self.old) }
        ensures returned { IfErr result (λ k. k ≡ key) }
    {
        match self {
            Kind::Array(members) => members.push(key, child),
            Kind::Object(_, props) => match key {
                Key::Int(_) => Ok(()),
                Key::Str(name) => match props.push(name, child) {
                    Ok(()) => Ok(()),
                    Err(name) => Err(Key::Str(name)),
                },
            },
            _ => Ok(()),
        }
    }

    // The words of the place in an image.
    pub(crate) fn cells(&self) -> u64
        requires { cells_of self.now < 2 ^ 62 }
        ensures { result ≡ cells_of self.now }
    {
        match self {
            Kind::Null | Kind::Bool(_) => 1,
            Kind::Int(_) | Kind::Same(_) => 2,
            Kind::Str(bytes) => 1 + bytes.cells(),
            Kind::Array(members) => 1 + members.cells(),
            Kind::Object(class, props) => 2 + class.cells() + props.cells(),
        }
    }

    // An equal place.
    pub(crate) fn try_copy(&self, alloc: Global) -> Result<Kind, AllocError>
        ensures { IfOk result (λ copy. copy ≡ self.now) }
    {
        match self {
            Kind::Null => Ok(Kind::Null),
            Kind::Bool(truth) => Ok(Kind::Bool(*truth)),
            Kind::Int(number) => Ok(Kind::Int(*number)),
            Kind::Str(bytes) => Ok(Kind::Str(bytes.try_copy(alloc)?)),
            Kind::Array(members) => Ok(Kind::Array(members.try_copy(alloc)?)),
            Kind::Object(class, props) => {
                let class = class.try_copy(alloc)?;
                Ok(Kind::Object(class, props.try_copy(alloc)?))
            }
            Kind::Same(place) => Ok(Kind::Same(*place)),
        }
    }

    // The same place of a graph whose numbers are lowered by this amount. None if that names none
    // of its places.
    pub(crate) fn lowered(&self, alloc: Global, by: u32) -> Result<Option<Kind>, AllocError>
        ensures { IfOk result (λ lowered. lowered ≡ lowered_kind by self.now) }
    {
        match self {
            Kind::Array(members) => match members.lowered(alloc, by)? {
                Some(members) => Ok(Some(Kind::Array(members))),
                None => Ok(None),
            },
            Kind::Object(class, props) => match props.lowered(alloc, by)? {
                Some(props) => Ok(Some(Kind::Object(class.try_copy(alloc)?, props))),
                None => Ok(None),
            },
            Kind::Same(place) if *place <= by => Ok(None),
            Kind::Same(place) => Ok(Some(Kind::Same(*place - by))),
            _ => Ok(Some(self.try_copy(alloc)?)),
        }
    }

    // Whether the two are equal.
    pub(crate) fn same(&self, other: &Kind) -> bool
        ensures { IsTrue result ↔ (self.now ≡ other.now) }
    {
        match (self, other) {
            (Kind::Null, Kind::Null) => true,
            (Kind::Bool(a), Kind::Bool(b)) => *a == *b,
            (Kind::Int(a), Kind::Int(b)) => *a == *b,
            (Kind::Str(a), Kind::Str(b)) => *a == *b,
            (Kind::Array(a), Kind::Array(b)) => a.same(b),
            (Kind::Object(class_a, a), Kind::Object(class_b, b)) => *class_a == *class_b
                && a.same(b),
            (Kind::Same(a), Kind::Same(b)) => *a == *b,
            _ => false,
        }
    }

    // The place of the last member that is written here.
    pub(crate) fn last_own(&self) -> Option<u32>
        ensures { result ≡ last_own None (children_of self.now) }
    {
        match self {
            Kind::Array(members) => members.last_own(),
            Kind::Object(_, props) => props.last_own(),
            _ => None,
        }
    }
}
