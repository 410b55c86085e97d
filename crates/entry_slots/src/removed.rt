//! The list of removed entries.

ghost use Rattle.std.specs.Prelude.{◌≡◌, ◌≢◌, ◌+◌, true, false, slice_index, slice_set, IfSome};
ghost use Rattle.std.specs.Prelude.{IfNone};
ghost use Rattle.seg_words.specs.Kept.{Kept, KeptBeside};
ghost use Rattle.entry_slots.specs.declared.head.TheConstants.{NEXT};
ghost use Rattle.entry_slots.specs.Lists.{has_place};
ghost use Rattle.entry_slots.specs.Entries.{moved_at, off_at, loose};
ghost use Rattle.entry_slots.specs.Standing.{Stand, entries};
ghost use Rattle.entry_slots.specs.Links.{IsRemovedLink};
ghost use Rattle.entry_slots.specs.Reading.{IsStorable};

use crate::head::NEXT;
use crate::lower::lower_laws;
use crate::reading::next_of;
use crate::slots::EntrySlots;
use crate::standing::Change;
use seg_words::{Segment, WordsIn};

impl EntrySlots {
    // Puts the unlinked row, whose link is 0, at the end of the removed ones.
    pub(crate) fn append<S: Segment>(&mut self, seg: &mut S, at: u32)
        requires stand { Stand S.WordsIn self.old seg.old }
        requires there { has_place at (entries self.old).unlinked ≡ true }
        requires alone { slice_index (S.words seg.old) (at + NEXT) ≡ 0 }
        ensures moved { entries self.new ≡ moved_at at (entries self.old) }
        ensures stand { Stand S.WordsIn self.new seg.new }
        ensures beside { KeptBeside S.WordsIn seg.old seg.new }
    {
        lower_laws();
        let Some(link) = self.removed_link(seg, 0) else {
            return;
        };
        self.name(seg, link, at);
        self.standing = self.standing.then(&Change::Move(at));
    }

    // Takes the row off the list of removed rows, if it is in it. Its block stays live.
    pub(crate) fn take_off<S: Segment>(&mut self, seg: &mut S, at: u32)
        requires stand { Stand S.WordsIn self.old seg.old }
        requires there { has_place at (loose (entries self.old)) ≡ true }
        ensures off { entries self.new ≡ off_at at (entries self.old) }
        ensures stand { Stand S.WordsIn self.new seg.new }
        ensures beside { KeptBeside S.WordsIn seg.old seg.new }
    {
        lower_laws();
        let Some(link) = self.removed_link(seg, at) else {
            self.standing = self.standing.then(&Change::TakeOff(at));
            return;
        };
        let next = next_of(seg, at);
        self.name(seg, link, next);
        self.standing = self.standing.then(&Change::TakeOff(at));
    }

    // Makes the link of the removed list name the place; link 0 is the head of the list.
    fn name<S: Segment>(&mut self, seg: &mut S, link: u32, place: u32)
        requires may { link ≢ 0 → IsStorable (S.words seg.old) (S.aside seg.old).windows link }
        ensures standing { self.new.standing ≡ self.old.standing }
        ensures head { link ≡ 0 → (self.new ≡ record self.old { removed = place })
            × (S.words seg.new ≡ S.words seg.old) }
        ensures word { link ≢ 0 → (self.new ≡ self.old)
            × (S.words seg.new ≡ slice_set (S.words seg.old) link place) }
        ensures beside { KeptBeside S.WordsIn seg.old seg.new }
    {
        if link == 0 {
            self.removed = place;
        } else {
            seg.store(link, u64::from(place));
        }
    }

    // The link of the removed list that names the row at `target`, or for 0 the last one; `None` if
    // the list has no such row.
    fn removed_link<S: WordsIn>(&self, seg: &mut S, target: u32) -> Option<u32>
        requires stand { Stand S.WordsIn self.now seg.old }
        ensures some { IfSome result (λ link.
            IsRemovedLink (S.words seg.old) (entries self.now).removed target link) }
        ensures none { IfNone result
            ((target ≢ 0) × (has_place target (entries self.now).removed ≡ false)) }
        ensures kept { Kept S.WordsIn seg.old seg.new }
    {
        let mut link = 0;
        let mut named = self.removed;
        for _passed in 0..self.sma.bounds.to {
            if named == target {
                return Some(link);
            }
            if named == 0 {
                return None;
            }
            link = named + NEXT;
            named = seg.load(link) as u32;
        }
        None
    }
}
