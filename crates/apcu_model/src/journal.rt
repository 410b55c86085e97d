//! A journal: the order in which events took effect.

ghost use Rattle.std.specs.Prelude.{◌≡◌, ◌+◌, ◌-◌, ◌<◌, [], ◌∷◌, ◌++◌, length, ◌==◌, IfOk};
ghost use Rattle.std.specs.Prelude.{slice_get, Some};

use std::alloc::{AllocError, Global};
use std::marker::Model;

/// The most events that the workers of one cache may make, all together.
pub const MOST_EVENTS: u64 = 4_194_304;

/// One line of a journal: the worker of the event, and the workers that were still copying.
#[derive(Clone, Copy, Debug, PartialEq, Eq)]
pub struct Mark {
    /// The worker's number, from 0.
    pub worker: u32,
    /// A bit for each worker that was found still copying. The event does not wait for it: its
    /// block stays taken.
    pub mask: u64,
}

/// The order in which events took effect. Contracts see its marks and the room that is left.
#[derive(Drop)]
pub struct Journal {
    marks: Vec<Mark>,
    room: u32,
}

impl Model for Journal {
    ghost use Rattle.std.specs.Prelude.{◌+◌, ◌≤◌, ◌<◌, ◌^◌, vec_len, vec_capacity};
    ghost use Rattle.apcu_model.specs.Journal.{Marks};

    ghost Value = { Marks };

    ghost view = { λ j. record { marks = j.marks.items; room = j.room } };

    ghost invariant = { λ j.
        (vec_len j.marks + j.room ≤ vec_capacity j.marks) × (vec_len j.marks + j.room < 2 ^ 32) };
}

impl Journal {
    /// An empty journal with room for `room` marks, which is allocated here.
    pub fn new(alloc: Global, room: u32) -> Result<Journal, AllocError>
        ensures { IfOk result (λ j. (j.marks ≡ []) × (j.room ≡ room)) }
    {
        Ok(Journal {
            marks: Vec::with_capacity(alloc, room as usize)?,
            room,
        })
    }

    /// Adds a mark at the end. It allocates no memory.
    pub fn push(&mut self, mark: Mark)
        requires { 0 < self.old.room }
        ensures marks { self.new.marks ≡ self.old.marks ++ mark ∷ [] }
        ensures room { self.new.room + 1 ≡ self.old.room }
    {
        self.marks.push_reserved(mark);
        self.room -= 1;
    }

    /// The number of marks.
    pub fn len(&self) -> u32
        ensures { result ≡ length self.now.marks }
    {
        self.marks.len() as u32
    }

    /// Whether there are none.
    pub fn is_empty(&self) -> bool
        ensures { result ≡ (length self.now.marks == 0) }
    {
        self.marks.is_empty()
    }

    /// The mark at an index, from 0.
    pub fn at(&self, i: u32) -> Mark
        requires { i < length self.now.marks }
        ensures { slice_get self.now.marks i ≡ Some result }
    {
        self.marks[i as usize]
    }
}
