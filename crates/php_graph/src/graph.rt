//! Value graphs.

ghost use Rattle.std.specs.Prelude.{◌≡◌, ℕ, ◌+◌, ◌<◌, ◌≤◌, ◌^◌, ◌↔◌, IsTrue, IfOk, IfErr, IfSome};
ghost use Rattle.std.specs.Prelude.{List, [], ◌∷◌, length, Some};
ghost use Rattle.php_graph.specs.ByteStrings.{AreBytes};
ghost use Rattle.php_graph.specs.declared.kind.Kind.TheVariants.{Str};
ghost use Rattle.std.specs.Option.{option_map};
ghost use Rattle.php_graph.specs.Graph.{IsGraph, kind_at, most_values, end_of, part_of};
ghost use Rattle.php_graph.specs.Graph.{lowered_places};
ghost use Rattle.php_graph.specs.MemberCounts.{children_in};
ghost use Rattle.php_graph.specs.PlaceOffsets.{IsKept, kinds_of, kinds_at, offsets_at};
ghost use Rattle.php_graph.specs.Size.{image_length, offset_of, block_size};

use crate::bytes::Bytes;
use crate::kind::Kind;
use crate::places::{Place, Places};
use seg_words::{HEAD_WORDS, words_in};
use std::alloc::{AllocError, Global};
use std::marker::Model;

/// A value as PHP's serialize notation numbers it: a list of places from 1, in the order in which
/// they are written. Order, sharing and cycles are the numbers in its members. It is always
/// complete and well formed.
#[derive(Debug)]
pub struct Graph {
    // What is at each place, and its offset in the image.
    places: Places,
    // The length of the image in words.
    words: u64,
}

impl Model for Graph {
    ghost use Rattle.std.specs.Prelude.{List};
    ghost use Rattle.php_graph.specs.declared.kind.Kind.{Kind};
    ghost use Rattle.php_graph.specs.PlaceOffsets.{IsKept, kinds_of, offsets_of};

    ghost Value = { List Kind };

    ghost view = { λ a. kinds_of a.places };

    ghost invariant = { λ a. IsKept (kinds_of a.places) (offsets_of a.places) a.words };
}

impl Drop for Graph {
    fn drop(self) {
        let Graph {
            places: _places,
            words: _,
        } = self;
    }
}

impl Graph {
    // The graph with these places.
    pub(crate) fn from_parts(places: Places) -> Graph
        requires graph { IsGraph (kinds_of places) }
        requires few { children_in (kinds_of places) ≤ most_values }
        ensures { result ≡ kinds_of places }
    {
        let mut places = places;
        let words = places.lay_out();
        Graph { places, words }
    }

    /// The graph of these places, the first separate from the others, with the offset of each in
    /// the image, and the image's length. It allocates no memory.
    pub fn from_places(first: Kind, others: Vec<Place>, words: u64) -> Graph
        requires { IsKept (first ∷ kinds_at others.items) (0 ∷ offsets_at others.items) words }
        ensures { result ≡ first ∷ kinds_at others.items }
    {
        let places = Places::of(first, others);
        Graph { places, words }
    }

    /// The number of places. Each graph is complete and well formed.
    pub fn places(&self) -> u32
        ensures count { result ≡ length self.now }
        ensures graph { IsGraph self.now }
    {
        self.places.len() as u32
    }

    /// What is at place k.
    pub fn kind(&self, k: u32) -> &Kind
        requires from_one { 1 ≤ k }
        requires there { k ≤ length self.now }
        ensures { kind_at self.now k ≡ Some result.now }
    {
        self.places.kind((k - 1) as usize)
    }

    /// The offset of place k in the graph's image, in words.
    pub fn at(&self, k: u32) -> u64
        requires from_one { 1 ≤ k }
        requires there { k ≤ length self.now }
        ensures { result ≡ offset_of self.now k }
    {
        self.places.at((k - 1) as usize)
    }

    /// The length of the graph's image, in words.
    pub fn words(&self) -> u64
        ensures words { result ≡ image_length self.now }
        ensures small { result < 2 ^ 60 }
    {
        self.words
    }

    /// Whether the two have equal places: the same values in the same order, with the same sharing.
    pub fn same(&self, other: &Graph) -> bool
        ensures { IsTrue result ↔ (self.now ≡ other.now) }
    {
        self.places.same(&other.places)
    }

    /// An equal graph.
    pub fn try_copy(&self, alloc: Global) -> Result<Graph, AllocError>
        ensures { IfOk result (λ copy. copy ≡ self.now) }
    {
        let places = self.places.try_copy(alloc)?;
        Ok(Graph {
            places,
            words: self.words,
        })
    }

    /// The value that is written at place k, as a graph of its own: its places, with all numbers
    /// lowered by k - 1. None exactly if one of them names a place outside that value.
    pub fn part(&self, alloc: Global, k: u32) -> Result<Option<Graph>, AllocError>
        requires from_one { 1 ≤ k }
        requires there { k ≤ length self.now }
        ensures { IfOk result (λ part. part ≡ part_of self.now k) }
    {
        let Some(places) = part_places(alloc, &self.places, k)? else {
            return Ok(None);
        };
        Ok(Some(Graph::from_parts(places)))
    }
}

// The number after the value that is written at place k. It reads only the last of its members, the
// last one's last and so on.
fn end_of(places: &Places, k: u32) -> u32
    requires graph { IsGraph (kinds_of places.now) }
    requires from_one { 1 ≤ k }
    requires there { k ≤ length (kinds_of places.now) }
    ensures end { end_of (kinds_of places.now) k ≡ Some result }
    ensures after { k < result }
    ensures within { result ≤ length (kinds_of places.now) + 1 }
{
    let mut place = k;
    while let Some(last) = places.kind((place - 1) as usize).last_own() {
        place = last;
    }
    place + 1
}

// The places of the value that is written at place k, with all numbers lowered by k - 1.
fn part_places(alloc: Global, places: &Places, k: u32) -> Result<Option<Places>, AllocError>
    requires graph { IsGraph (kinds_of places.now) }
    requires few { children_in (kinds_of places.now) ≤ most_values }
    requires from_one { 1 ≤ k }
    requires there { k ≤ length (kinds_of places.now) }
    ensures part { IfOk result
        (λ part. option_map kinds_of part ≡ part_of (kinds_of places.now) k) }
    ensures graph { IfOk result (λ part. IfSome part
        (λ p. IsGraph (kinds_of p) × (children_in (kinds_of p) ≤ most_values))) }
{
    let end = end_of(places, k);
    places.lowered(alloc, (k - 1) as usize, (end - 1) as usize, k - 1)
}

/// The words of an entry's block: its head, its key and the graph's image, filled up to an even
/// number.
pub fn block_words(key_len: u64, g: &Graph) -> u64
    requires { key_len < 2 ^ 32 }
    ensures { result ≡ block_size key_len g.now }
{
    let words = u64::from(HEAD_WORDS + words_in(key_len as u32)) + g.words();
    words + words % 2
}

impl Graph {
    /// The bytes of a value that is one string; any other value is returned as it is. It allocates
    /// no memory.
    pub fn into_string(self) -> Result<Bytes, Graph>
        ensures string { IfOk result (λ bytes. (self ≡ Str bytes ∷ []) × AreBytes bytes) }
        ensures other { IfErr result
            (λ g. (g ≡ self) × ((bytes : List ℕ) → ¬ self ≡ Str bytes ∷ [])) }
    {
        let Graph { places, words } = self;
        match places.into_string() {
            Ok(bytes) => Ok(bytes),
            Err(places) => Err(Graph { places, words }),
        }
    }
}
