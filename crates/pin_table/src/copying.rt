//! A worker's copy from a pinned block.

ghost use Rattle.std.specs.Prelude.{◌≡◌, ℕ, ◌+◌, ◌-◌, ◌<◌, ◌≤◌, length, slice_index};

use crate::pass::Pass;
use crate::rule::{CopyRead, Release};
use crate::table::PinTable;
use crate::views::View;
use atomic_table::Seat;
use seg_words::PIN_COUNT;
use std::marker::Model;

/// A worker's copy from a pinned block. The block's value does not change until it is released; if
/// this is dropped, the block stays pinned for good.
///
/// Contracts see the table and what the worker knows: what a pass knows, the block, and the words
/// of the value's image as they were at the pin.
pub struct Copying {
    pub(crate) seat: Seat<u64, View>,
    pub(crate) worker: u32,
    pub(crate) left: u32,
    pub(crate) block: u32,
    pub(crate) first: u32,
    pub(crate) len: u32,
}

impl Drop for Copying {
    fn drop(self) {
        let Copying {
            seat: _,
            worker: _,
            left: _,
            block: _,
            first: _,
            len: _,
        } = self;
    }
}

impl Model for Copying {
    ghost use Rattle.std.specs.Prelude.{◌≡◌, ◌+◌, ◌<◌, ◌≤◌, [], length};
    ghost use Rattle.seg_words.specs.declared.layout.TheConstants.{HEAD_WORDS};
    ghost use Rattle.pin_table.specs.Values.{CopyView};
    ghost use Rattle.pin_table.specs.Views.{copying_reader};
    ghost use Rattle.pin_table.specs.declared.views.View.TheVariants as views;

    ghost Value = { CopyView };

    ghost view = { λ p. record { table = p.seat.table_id; copy = copying_reader p.seat.me.0 } };

    ghost invariant = { λ p.
        (p.seat.me ≡ (views.Copying (copying_reader p.seat.me.0), []))
        × (p.worker ≡ (copying_reader p.seat.me.0).known.worker)
        × (p.left ≡ (copying_reader p.seat.me.0).known.left)
        × (p.block ≡ (copying_reader p.seat.me.0).block)
        × (p.first + length (copying_reader p.seat.me.0).content ≤ p.seat.table_id.words)
        × (p.block + HEAD_WORDS ≤ p.first)
        × (p.len ≡ length (copying_reader p.seat.me.0).content)
        × (p.first ≡ (copying_reader p.seat.me.0).first) };
}

impl Copying {
    /// The place and the length of the value's image, in words.
    pub fn range(&self) -> (u32, u32)
        ensures place { result.0 ≡ self.now.copy.first }
        ensures length { result.1 ≡ length self.now.copy.content }
    {
        (self.first, self.len)
    }

    // The word at this place of the table, which is one of the image.
    pub(crate) fn word_at(&mut self, table: &PinTable, place: usize) -> u64
        requires table { self.old.table ≡ table.now }
        requires from { self.old.copy.first ≤ place }
        requires to { place < self.old.copy.first + length self.old.copy.content }
        ensures word { result
            ≡ slice_index self.old.copy.content (place - self.old.copy.first) }
        ensures same { self.new ≡ self.old }
    {
        table.table.shared.load::<CopyRead>(&mut self.seat, place)
    }

    /// The word `i` of the image, as it was at the pin.
    pub fn word(&mut self, table: &PinTable, i: u32) -> u64
        requires table { self.old.table ≡ table.now }
        requires place { i < length self.old.copy.content }
        ensures word { result ≡ slice_index self.old.copy.content i }
        ensures same { self.new ≡ self.old }
    {
        self.word_at(table, self.first as usize + i as usize)
    }

    // The eight words of the image from the word `i` on, as they were at the pin. The place where
    // the image begins is passed in, so that it is not looked up at each of them.
    pub(crate) fn eight(&mut self, table: &PinTable, first: u32, i: u32) -> [u64; 8]
        requires table { self.old.table ≡ table.now }
        requires first { first ≡ self.old.copy.first }
        requires place { i + 8 ≤ length self.old.copy.content }
        ensures each { (k : ℕ) → k < 8
            → slice_index result k ≡ slice_index self.old.copy.content (i + k) }
        ensures same { self.new ≡ self.old }
    {
        let place = first as usize + i as usize;
        [
            self.word_at(table, place),
            self.word_at(table, place + 1),
            self.word_at(table, place + 2),
            self.word_at(table, place + 3),
            self.word_at(table, place + 4),
            self.word_at(table, place + 5),
            self.word_at(table, place + 6),
            self.word_at(table, place + 7),
        ]
    }

    /// Ends the copy: the block may be reused, and the worker gets its pass back.
    pub fn release(self, table: &PinTable) -> Pass
        requires table { self.table ≡ table.now }
        ensures table { result.table ≡ self.table }
        ensures known { result.known ≡ self.copy.known }
    {
        let Copying {
            mut seat,
            worker,
            left,
            block,
            first: _,
            len: _,
        } = self;
        table
            .table
            .shared
            .fetch_sub::<Release>(&mut seat, block as usize + PIN_COUNT as usize, 1);
        Pass { seat, worker, left }
    }
}
