//! The ghost of the entries: what the words represent.

ghost use Rattle.entry_slots.specs.Entries.{Entries, no_entries};

use apcu_model::Conf;
use ghost_log::{Begins, Happens, Log};
use std::marker::Model;
use value_image::Content;

/// The entries that the words next to it represent. It exists only in proofs.
pub type Standing = Log<EntrySets>;

/// What contracts see as entries. No value of this type is made.
pub struct EntrySets {
    conf: Conf,
}

impl Model for EntrySets {
    ghost Value = { Entries };

    ghost view = { λ s. no_entries s.conf };
}

// No entry, in a segment of this shape.
impl Begins<EntrySets> for Conf {
    ghost begun = { no_entries };
}

/// A change of the entries, with the place of the block that it is about.
#[derive(Clone, Copy, Drop)]
pub enum Change<'a> {
    /// A block of this many words was taken.
    Take(u32, u32),
    /// The row was used at this moment.
    Touch(u32, u64),
    /// The row holds this integer since that moment.
    SetInt(u32, i64, u64),
    /// The row was taken out of its chain.
    Unlink(u32),
    /// The unlinked row was dropped at this moment.
    Date(u32, u64),
    /// The unlinked row is the last of the removed ones.
    Move(u32),
    /// The row is not a removed one any more.
    TakeOff(u32),
    /// The unlinked row and its block were freed.
    Give(u32),
    /// A row with this key, content, time to live and moment was added.
    Link(u32, &'a [u8], &'a Content<'a>, u32, u64),
    /// All rows were dropped.
    Clear,
}

impl Happens<EntrySets> for Change<'_> {
    ghost use Rattle.entry_slots.specs.Changes.{changed};

    ghost after = { changed };
}
