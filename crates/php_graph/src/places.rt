//! The places of a graph, as they are in memory.

ghost use Rattle.std.specs.Prelude.{◌≡◌, ◌+◌, ◌-◌, ◌<◌, ◌≤◌, ◌^◌, ◌++◌, ◌∷◌, [], IsTrue, ◌↔◌, List};
ghost use Rattle.std.specs.Prelude.{length, take, drop, slice_get, slice_set, slice_index, Some};
ghost use Rattle.std.specs.Prelude.{IfOk, IfErr, OnOk, OnErr, true};
ghost use Rattle.std.specs.Option.{option_map};
ghost use Rattle.php_graph.specs.declared.kind.Kind.{Kind};
ghost use Rattle.php_graph.specs.declared.kind.Kind.TheVariants.{Str};
ghost use Rattle.php_graph.specs.ByteStrings.{AreBytes};
ghost use Rattle.php_graph.specs.Graph.{children_of, is_object, lowered_places};
ghost use Rattle.php_graph.specs.Building.{with_member, is_name};
ghost use Rattle.php_graph.specs.PlaceOffsets.{kinds_of, offsets_of, kinds_at, offsets_at};
ghost use Rattle.php_graph.specs.PlaceOffsets.{offsets_from};
ghost use Rattle.php_graph.specs.Size.{image_length};

use crate::bytes::Bytes;
use crate::child::Child;
use crate::key::Key;
use crate::kind::Kind;
use std::alloc::{AllocError, Global};
use std::marker::Model;

/// What is at a place of a graph, and its offset in the graph's image, in words.
#[derive(Debug, Drop)]
pub struct Place {
    pub kind: Kind,
    pub at: u64,
}

// Places, at least one. The first is in this struct itself, so that a value that is no container
// allocates no memory except for its bytes; the others are together with the offset of each.
#[derive(Debug, Drop)]
pub(crate) struct Places {
    first: Kind,
    others: Vec<Place>,
}

impl Model for Places {
    ghost use Rattle.php_graph.specs.PlaceOffsets.{PlaceList};

    ghost Value = { PlaceList };

    ghost view = { λ a. record { first = a.first; others = a.others.items } };
}

impl Places {
    // The first place alone.
    pub(crate) fn new(alloc: Global, first: Kind) -> Places
        ensures { result ≡ record { first = first; others = [] } }
    {
        Places {
            first,
            others: Vec::new(alloc),
        }
    }

    pub(crate) fn of(first: Kind, others: Vec<Place>) -> Places
        ensures { result ≡ record { first = first; others = others.items } }
    {
        Places { first, others }
    }

    // The number of places.
    pub(crate) fn len(&self) -> usize
        ensures { result ≡ length (kinds_of self.now) }
    {
        self.others.len() + 1
    }

    // What is at the place with this number, from 0.
    #[tactic(auto, using(crate::proofs::PlaceLemmas::other_kind))]
    pub(crate) fn kind(&self, i: usize) -> &Kind
        requires { i < length (kinds_of self.now) }
        ensures { slice_get (kinds_of self.now) i ≡ Some result.now }
    {
        if i == 0 {
            &self.first
        } else {
            &self.others[i - 1].kind
        }
    }

    // The offset in the image of the place with this number, from 0.
    pub(crate) fn at(&self, i: usize) -> u64
        requires { i < length (kinds_of self.now) }
        ensures { result ≡ slice_index (offsets_of self.now) i }
    {
        if i == 0 { 0 } else { self.others[i - 1].at }
    }

    // Adds a place at the end.
    pub(crate) fn push(&mut self, kind: Kind) -> Result<(), AllocError>
        ensures first { self.new.first ≡ self.old.first }
        ensures ok { OnOk result
            (self.new.others ≡ self.old.others ++ record { kind = kind; at = 0 } ∷ []) }
        ensures err { OnErr result (self.new.others ≡ self.old.others) }
    {
        self.others.push(Place { kind, at: 0 })?;
        Ok(())
    }

    // Removes the last place, unless it is the only one.
    pub(crate) fn drop_last(&mut self)
        ensures first { self.new.first ≡ self.old.first }
        ensures others { self.new.others ≡ take (length self.old.others - 1) self.old.others }
    {
        let len = self.others.len();
        self.others.truncate(len.saturating_sub(1));
    }

    // Adds a member to the container at this place. If there is no memory, returns the key.
    pub(crate) fn add(&mut self, i: usize, key: Key, child: Child) -> Result<(), Key>
        requires there { i < length (kinds_of self.old) }
        requires room { (kind : Kind) → slice_get (kinds_of self.old) i ≡ Some kind
            → length (children_of kind) + 1 < 2 ^ 32 }
        requires named { (kind : Kind) → slice_get (kinds_of self.old) i ≡ Some kind
            → is_object kind ≡ true → is_name key ≡ true }
        ensures ok { OnOk result ((kind : Kind) → slice_get (kinds_of self.old) i ≡ Some kind
            → kinds_of self.new ≡ slice_set (kinds_of self.old) i (with_member kind key child)) }
        ensures err { OnErr result (self.new ≡ self.old) }
        ensures returned { IfErr result (λ k. k ≡ key) }
    {
        if i == 0 {
            self.first.add(key, child)
        } else {
            self.others[i - 1].kind.add(key, child)
        }
    }

    // Writes the offset of each place, and returns the number of words of all.
    pub(crate) fn lay_out(&mut self) -> u64
        requires { image_length (kinds_of self.old) < 2 ^ 60 }
        ensures kinds { kinds_of self.new ≡ kinds_of self.old }
        ensures offsets { offsets_of self.new ≡ offsets_from 0 (kinds_of self.old) }
        ensures words { result ≡ image_length (kinds_of self.old) }
    {
        let words = self.first.cells();
        lay_out(&mut self.others, words)
    }

    // Whether the same is at each place.
    pub(crate) fn same(&self, other: &Places) -> bool
        ensures { IsTrue result ↔ (kinds_of self.now ≡ kinds_of other.now) }
    {
        self.first.same(&other.first) && same_places(&self.others, &other.others)
    }

    // Equal places.
    pub(crate) fn try_copy(&self, alloc: Global) -> Result<Places, AllocError>
        ensures { IfOk result (λ copy. copy ≡ self.now) }
    {
        let others = copied(alloc, &self.others)?;
        let first = self.first.try_copy(alloc)?;
        Ok(Places { first, others })
    }

    // The places from the one with this number to before that one, from 0, with all numbers
    // lowered. None if one of them names a place outside.
    pub(crate) fn lowered(
        &self,
        alloc: Global,
        from: usize,
        to: usize,
        by: u32,
    ) -> Result<Option<Places>, AllocError>
        requires before { from < to }
        requires there { to ≤ length (kinds_of self.now) }
        ensures { IfOk result (λ made. option_map kinds_of made
            ≡ lowered_places by (take (to - from) (drop from (kinds_of self.now)))) }
    {
        let Some(first) = self.kind(from).lowered(alloc, by)? else {
            return Ok(None);
        };
        let Some(others) = lowered(alloc, &self.others[from..to - 1], by)? else {
            return Ok(None);
        };
        Ok(Some(Places { first, others }))
    }

    // The bytes of the only place, if it is a string.
    pub(crate) fn into_string(self) -> Result<Bytes, Places>
        ensures string { IfOk result (λ bytes. (kinds_of self ≡ Str bytes ∷ []) × AreBytes bytes) }
        ensures other { IfErr result (λ places. (places ≡ self)
            × ((bytes : List _) → ¬ kinds_of self ≡ Str bytes ∷ [])) }
    {
        let Places { first, others } = self;
        if !others.is_empty() {
            return Err(Places { first, others });
        }
        match first {
            Kind::Str(bytes) => Ok(bytes),
            first => Err(Places { first, others }),
        }
    }
}

// Writes the offset of each of these places, if the first one has the offset `from`, and returns
// the offset after the last one.
fn lay_out(places: &mut Vec<Place>, from: u64) -> u64
    requires { from + image_length (kinds_at places.old.items) < 2 ^ 60 }
    ensures kinds { kinds_at places.new.items ≡ kinds_at places.old.items }
    ensures offsets { offsets_at places.new.items ≡ offsets_from from (kinds_at places.old.items) }
    ensures words { result ≡ from + image_length (kinds_at places.old.items) }
{
    let mut words = from;
    for i in 0..places.len() {
        let cells = places[i].kind.cells();
        places[i].at = words;
        words += cells;
    }
    words
}

// Whether the same is at each of these places.
#[tactic(auto, using(crate::proofs::PlaceLemmas::same_at))]
fn same_places(places: &[Place], others: &[Place]) -> bool
    ensures { IsTrue result ↔ (kinds_at places.now ≡ kinds_at others.now) }
{
    if places.len() != others.len() {
        return false;
    }
    for i in 0..places.len() {
        if !places[i].kind.same(&others[i].kind) {
            return false;
        }
    }
    true
}

// Equal places.
fn copied(alloc: Global, places: &[Place]) -> Result<Vec<Place>, AllocError>
    ensures { IfOk result (λ copies. copies.items ≡ places.now) }
{
    let mut copies = Vec::new(alloc);
    for place in places {
        let kind = place.kind.try_copy(alloc)?;
        copies.push(Place { kind, at: place.at })?;
    }
    Ok(copies)
}

// The places with all numbers lowered. None if one of them names a place outside.
fn lowered(alloc: Global, places: &[Place], by: u32) -> Result<Option<Vec<Place>>, AllocError>
    ensures { IfOk result (λ made. option_map (λ v. kinds_at v.items) made
        ≡ lowered_places by (kinds_at places.now)) }
{
    let mut made = Vec::new(alloc);
    for place in places {
        let Some(kind) = place.kind.lowered(alloc, by)? else {
            return Ok(None);
        };
        made.push(Place { kind, at: 0 })?;
    }
    Ok(Some(made))
}
