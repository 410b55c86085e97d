//! A sink in memory.

ghost use Rattle.std.specs.Prelude.{◌≡◌, ◌<◌, ◌≤◌, length, Some, [], IfOk};
ghost use Rattle.std.specs.Io.KnownBytes.{append_known};
ghost use Rattle.io_edges.specs.Writing.{bytes_taken, TakesWithin, CountsWriteFault};
ghost use Rattle.io_edges.specs.Memory.{write_answer, after_write};

use crate::{Put, Sink};
use std::alloc::{AllocError, Global};
use std::marker::Model;

/// A sink in memory, which reports what it holds. Its room is allocated when it is made, so no
/// write allocates memory.
#[derive(Drop)]
pub struct MemSink<'a> {
    bytes: Vec<u8>,
    room: usize,
    piece: usize,
    fails: &'a [u64],
    call: u64,
    faults: u64,
}

impl<'a> Model for MemSink<'a> {
    ghost use Rattle.std.specs.Prelude.{◌≤◌, vec_len, vec_capacity};
    ghost use Rattle.io_edges.specs.Memory.{Output};

    ghost Value = { Output };

    ghost view = { λ s. record {
      held = s.bytes.items;
      room = s.room;
      piece = s.piece;
      fails = s.fails.now;
      call = s.call;
      faults = s.faults;
    } };

    ghost invariant = { λ s.
        (1 ≤ s.piece) × (vec_len s.bytes ≤ s.room) × (s.room ≤ vec_capacity s.bytes) };
}

impl<'a> MemSink<'a> {
    /// An empty sink with room for `room` bytes, which is allocated here. A write takes at most
    /// `piece` bytes. The writes whose numbers, from 0, are in `fails` fail, and so does each when
    /// the room is used up.
    pub fn new(
        alloc: Global,
        room: usize,
        piece: usize,
        fails: &'a [u64],
    ) -> Result<MemSink<'a>, AllocError>
        requires { 1 ≤ piece }
        ensures { IfOk result (λ sink. sink ≡ record {
          held = [];
          room = room;
          piece = piece;
          fails = fails.now;
          call = 0;
          faults = 0;
        }) }
    {
        Ok(MemSink {
            bytes: Vec::with_capacity(alloc, room)?,
            room,
            piece,
            fails,
            call: 0,
            faults: 0,
        })
    }

    /// The bytes that it holds.
    pub fn as_slice(&self) -> &[u8]
        ensures bytes { result.now ≡ self.now.held }
        ensures within { length result.now ≤ self.now.room }
    {
        self.bytes.as_slice()
    }
}

impl Sink for MemSink<'_> {
    ghost held = { λ s. Some s.held };

    ghost faults = { λ s. s.faults };

    fn write(&mut self, from: &[u8]) -> Put
        requires { 0 < length from.now }
        ensures answer { result ≡ write_answer self.old (length from.now) }
        ensures after { self.new ≡ after_write self.old from.now }
        ensures took { TakesWithin result (length from.now) }
        ensures bytes { Some self.new.held
            ≡ append_known (Some self.old.held) (bytes_taken result from.now) }
        ensures faults { CountsWriteFault result self.old.faults self.new.faults }
    {
        let number = self.call;
        self.call = number.saturating_add(1);
        let left = self.room - self.bytes.len();
        if self.fails.contains(&number) || left == 0 {
            self.faults = self.faults.saturating_add(1);
            return Put::Failed;
        }
        let count = self.piece.min(from.len().min(left));
        self.bytes.extend_from_slice(&from[..count]).unwrap();
        Put::Took(count)
    }
}
