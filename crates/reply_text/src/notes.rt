//! Results that are noted for the keys of a call: a repeated key keeps its place, with the later
//! result.

ghost use Rattle.std.specs.Prelude.{◌≡◌, [], map, OnOk};
ghost use Rattle.reply_text.specs.Replies.{noted};

use php_graph::Bytes;
use std::alloc::{AllocError, Global};
use std::collections::BTreeMap;
use std::marker::Model;

/// Keys with their results, in the order in which the keys first had one. Contracts see the list.
pub struct Notes<'a, A> {
    notes: Vec<(&'a Bytes, A)>,
    places: BTreeMap<Bytes, usize>,
    alloc: Global,
}

impl<'a, A: Drop> Drop for Notes<'a, A> {
    fn drop(self) {
        let Notes {
            notes: _,
            places: _,
            alloc: _,
        } = self;
    }
}

impl<'a, A> Model for Notes<'a, A> {
    ghost use Rattle.std.specs.Prelude.{List, ℕ, map};
    ghost use Rattle.reply_text.specs.Notes.{KnowsNotes};

    ghost Value = { List (List ℕ × A) };

    ghost view = { λ n. map (λ note. (note.0.now, note.1)) n.notes.items };

    ghost invariant = { λ n.
        KnowsNotes (map (λ note. (note.0.now, note.1)) n.notes.items) n.places };
}

impl<'a, A: Drop> Notes<'a, A> {
    /// Nothing is noted.
    pub fn new(alloc: Global) -> Notes<'a, A>
        ensures { result ≡ [] }
    {
        Notes {
            notes: Vec::new(alloc),
            places: BTreeMap::new(alloc),
            alloc,
        }
    }

    /// Notes a result for a key.
    pub fn note(&mut self, key: &'a Bytes, answer: A) -> Result<(), AllocError>
        ensures { OnOk result (self.new ≡ noted key.now answer self.old) }
    {
        match self.places.get(key) {
            Some(place) => {
                self.notes[*place] = (key, answer);
                Ok(())
            }
            None => {
                self.notes.reserve(1)?;
                let own = Bytes::of(self.alloc, key.as_slice())?;
                self.places.insert(own, self.notes.len())?;
                self.notes.push_reserved((key, answer));
                Ok(())
            }
        }
    }

    /// All notes, in their order.
    pub fn as_slice(&self) -> &[(&'a Bytes, A)]
        ensures { map (λ note. (note.0.now, note.1)) result.now ≡ self.now }
    {
        &self.notes
    }
}
