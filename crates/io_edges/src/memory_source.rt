//! A source over bytes in memory.

ghost use Rattle.std.specs.Prelude.{◌≡◌, ◌<◌, ◌≤◌, length, Some, take};
ghost use Rattle.std.specs.Io.KnownBytes.{prepend_known};
ghost use Rattle.io_edges.specs.Reading.{bytes_given, GivesWithin, EndsOnlyAtEnd, CountsReadFault};
ghost use Rattle.io_edges.specs.Memory.{read_answer, after_read};

use crate::{Got, Source};
use std::marker::Model;

/// A source over bytes in memory, which reports what is left. It reads in pieces of a given size,
/// and fails at given calls, so that a test can choose both.
#[derive(Drop)]
pub struct MemSource<'a> {
    rest: &'a [u8],
    piece: usize,
    fails: &'a [u64],
    call: u64,
    faults: u64,
}

impl<'a> Model for MemSource<'a> {
    ghost use Rattle.std.specs.Prelude.{◌≤◌};
    ghost use Rattle.io_edges.specs.Memory.{Input};

    ghost Value = { Input };

    ghost view = { λ s. record {
      left = s.rest.now;
      piece = s.piece;
      fails = s.fails.now;
      call = s.call;
      faults = s.faults;
    } };

    ghost invariant = { λ s. 1 ≤ s.piece };
}

impl<'a> MemSource<'a> {
    /// A source of these bytes. A read returns as many as there are and as fit, but at most
    /// `piece`. The reads whose numbers, from 0, are in `fails` fail.
    pub fn new(bytes: &'a [u8], piece: usize, fails: &'a [u64]) -> MemSource<'a>
        requires { 1 ≤ piece }
        ensures { result ≡ record {
          left = bytes.now;
          piece = piece;
          fails = fails.now;
          call = 0;
          faults = 0;
        } }
    {
        MemSource {
            rest: bytes,
            piece,
            fails,
            call: 0,
            faults: 0,
        }
    }
}

impl Source for MemSource<'_> {
    ghost left = { λ s. Some s.left };

    ghost faults = { λ s. s.faults };

    fn read(&mut self, into: &mut [u8]) -> Got
        requires { 0 < length into.old }
        ensures answer { result ≡ read_answer self.old (length into.old) }
        ensures after { self.new ≡ after_read self.old (length into.old) }
        ensures took { GivesWithin result (length into.new) }
        ensures bytes { Some self.old.left
            ≡ prepend_known (bytes_given result into.new) (Some self.new.left) }
        ensures end { EndsOnlyAtEnd result (Some self.new.left) }
        ensures faults { CountsReadFault result self.old.faults self.new.faults }
    {
        let number = self.call;
        self.call = number.saturating_add(1);
        if self.fails.contains(&number) {
            self.faults = self.faults.saturating_add(1);
            return Got::Failed;
        }
        if self.rest.is_empty() {
            return Got::End;
        }
        let count = self.piece.min(into.len().min(self.rest.len()));
        into[..count].copy_from_slice(&self.rest[..count]);
        self.rest = &self.rest[count..];
        Got::Took(count)
    }
}
