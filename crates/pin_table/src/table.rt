//! The row of words that all workers share, and the right to write them.

ghost use Rattle.std.specs.Prelude.{cond, ◌==◌, ◌≡◌, ℕ, ◌+◌, ◌-◌, ◌*◌, ◌<◌, ◌≤◌, ◌^◌, true, false};
ghost use Rattle.std.specs.Prelude.{[], length, List, replicate, slice_index, slice_set, Some};
ghost use Rattle.std.specs.Prelude.{None, IfOk, MatchBool};
ghost use Rattle.seg_words.specs.declared.layout.TheConstants.{IMAGE_LENGTH};
ghost use Rattle.seg_words.specs.Windows.{has, is_named, closed_on, held_by, holders};
ghost use Rattle.seg_words.specs.Blocks.{IsTold, MayStore, MayProbe, image_place};
ghost use Rattle.apcu_model.specs.declared.limits.TheConstants.{MOST_WORKERS};
ghost use Rattle.pin_table.specs.Events.{is_fetch};
ghost use Rattle.pin_table.specs.Pins.{IsBlock, MeetsNone, refused_in};
ghost use Rattle.pin_table.specs.Views.{has_worker, state_of, in_hand, with_words, with_log};
ghost use Rattle.pin_table.specs.Views.{with_hand, with_event, known_after, newcomer};
ghost use Rattle.pin_table.specs.Views.{with_newcomer, seen_all, rested, taken_in, shut, probed};
ghost use Rattle.pin_table.specs.Views.{pinning_at, copied, reader_after, first_view};
ghost use Rattle.pin_table.specs.Order.{StateInOrder};
ghost use Rattle.std.specs.Mem.Slots.{slots_items, slots_len, IsFull};

use crate::copying::Copying;
use crate::pass::Pass;
use crate::rule::{
    Close, CopyOut, Give, GiveBack, GiveSeen, Look, Make, Pin, Probe, Read, Saying, SharedWords,
    Take, Write,
};
use crate::views::{Start, View};
use atomic_table::{Closed, Seat, Table};
use seg_words::PIN_COUNT;
use std::alloc::{AllocError, Global};
use std::marker::Model;

/// A row of words that all workers share.
///
/// Contracts see the table's name, which its seat and its passes carry as well.
pub struct PinTable {
    pub(crate) table: Table<u64, View, Start, SharedWords, Global>,
    // The memory in which the words are returned at the end.
    row: Vec<u64>,
}

impl Drop for PinTable {
    fn drop(self) {
        let PinTable { table: _, row: _ } = self;
    }
}

impl Model for PinTable {
    ghost use Rattle.std.specs.Prelude.{◌≡◌, ◌<◌, ◌^◌, length};
    ghost use Rattle.atomic_table.specs.Seated.{TableId, table_id_coded};

    ghost Value = { TableId };

    ghost coded = { table_id_coded };

    ghost view = { λ t. t.table.shared.table_id };

    ghost invariant = { λ t.
        (0 < t.table.shared.table_id.words)
        × (t.table.shared.table_id.words < 2 ^ 32)
        × (t.table.shared.table_id.slots ≡ 0)
        × (length t.row.items ≡ t.table.shared.table_id.words) };
}

/// The right to write: what the cache's lock guards.
///
/// Contracts see the table and the writer's state: the words as it knows them, the history of
/// events, the windows, and what the probes of the current event have found.
#[derive(Drop)]
pub struct WriterSeat {
    seat: Seat<u64, View>,
    windows: Vec<u32>,
    pub(crate) mask: u64,
}

impl Model for WriterSeat {
    ghost use Rattle.std.specs.Prelude.{◌≡◌, ◌≤◌, [], length};
    ghost use Rattle.apcu_model.specs.declared.limits.TheConstants.{MOST_WORKERS};
    ghost use Rattle.pin_table.specs.Values.{WriterView};
    ghost use Rattle.pin_table.specs.Views.{state_of};
    ghost use Rattle.pin_table.specs.declared.views.View.TheVariants.{Writer};

    ghost Value = { WriterView };

    ghost view = { λ s. record { table = s.seat.table_id; state = state_of s.seat.me.0 } };

    ghost invariant = { λ s.
        (s.seat.id ≡ 0)
        × (s.seat.me ≡ (Writer (state_of s.seat.me.0), []))
        × (length (state_of s.seat.me.0).words ≡ s.seat.table_id.words)
        × (s.windows.items ≡ (state_of s.seat.me.0).windows)
        × (length s.windows.items ≤ MOST_WORKERS)
        × (s.mask ≡ (state_of s.seat.me.0).mask)
        × ((state_of s.seat.me.0).pinning ≡ 0) };
}

fn set_window(windows: &mut Vec<u32>, worker: u32, at: u32)
    ensures { windows.new.items ≡ slice_set windows.old.items worker at }
{
    let v = worker as usize;
    if v < windows.len() {
        windows[v] = at;
    }
}

fn unless_at(kept: u32, at: u32) -> u32
    ensures { result ≡ cond (kept == at) 0 kept }
{
    if kept == at { 0 } else { kept }
}

fn close_windows(windows: &mut Vec<u32>, at: u32)
    ensures { windows.new.items ≡ closed_on at windows.old.items }
{
    let mut v: usize = 0;
    while v < windows.len() {
        let kept = windows[v];
        windows[v] = unless_at(kept, at);
        v += 1;
    }
}

// The workers whose window is this place, a bit each, the worker 0 lowest.
fn holders(windows: &[u32], at: u32) -> u64
    requires { length windows.now ≤ MOST_WORKERS }
    ensures { result ≡ holders windows.now at }
{
    let mut mask = 0u64;
    let mut v = windows.len();
    while v > 0 {
        v -= 1;
        let one = if windows[v] == at { 1 } else { 0 };
        mask = mask * 2 + one;
    }
    mask
}

fn copy_back(closed: &Closed<u64, Global>, row: &mut Vec<u64>)
    requires full { IsFull closed.now.words }
    requires count { slots_len closed.now.words ≡ length row.old.items }
    requires items { length (slots_items closed.now.words) ≡ length row.old.items }
    ensures { row.new.items ≡ slots_items closed.now.words }
{
    let mut i: usize = 0;
    while i < row.len() {
        row[i] = closed.word(i);
        i += 1;
    }
}

impl WriterSeat {
    // The mask of the current event.
    pub(crate) fn mask(&self) -> u64
        ensures { result ≡ self.now.state.mask }
    {
        self.mask
    }
}

impl PinTable {
    // The words, and the right to write them. No worker is made.
    pub(crate) fn of_words(
        alloc: Global,
        words: Vec<u64>,
        budgets: Vec<u32>,
        windows: Vec<u32>,
    ) -> Result<(PinTable, WriterSeat), AllocError>
        requires some_word { 0 < length words.items }
        requires short { length words.items < 2 ^ 32 }
        requires few { length budgets.items ≤ MOST_WORKERS }
        requires windows { windows.items ≡ replicate (length budgets.items) 0 }
        ensures table { IfOk result (λ r. r.1.table ≡ r.0) }
        ensures count { IfOk result (λ r. r.0.words ≡ length words.items) }
        ensures state { IfOk result (λ r.
            r.1.state ≡ state_of (first_view (record { words = words; budgets = budgets }))) }
    {
        let start = Start { words, budgets };
        let (table, seat) = Table::of_words(alloc, start.words.as_slice(), &start)?;
        let Start { words, budgets: _ } = start;
        Ok((
            PinTable { table, row: words },
            WriterSeat {
                seat,
                windows,
                mask: 0,
            },
        ))
    }

    /// The number of words.
    pub fn len(&self) -> u32
        ensures { result ≡ self.now.words }
    {
        self.table.word_count() as u32
    }

    // What the rule says of the writer's state.
    pub(crate) fn look(&self, seat: &mut WriterSeat)
        requires table { seat.old.table ≡ self.now }
        ensures state { (copying : List ℕ) × StateInOrder seat.new.state copying }
        ensures seat { seat.new ≡ seat.old }
    {
        self.table.shared.load::<Look>(&mut seat.seat, 0);
    }

    // A new worker's pass.
    pub(crate) fn make(&self, seat: &mut WriterSeat, worker: u32, left: u32) -> Pass
        requires table { seat.old.table ≡ self.now }
        requires room { seat.old.state.log.made < length seat.old.state.log.budgets }
        requires worker { worker ≡ seat.old.state.log.made }
        requires left { left ≡ slice_index seat.old.state.log.budgets seat.old.state.log.made }
        ensures table { seat.new.table ≡ seat.old.table }
        ensures state { seat.new.state
            ≡ with_log seat.old.state (with_newcomer seat.old.state.log) }
        ensures pass { (result.table ≡ self.now) × (result.known ≡ newcomer seat.old.state.log) }
    {
        let seat = self.table.shared.split_seat::<Make>(&mut seat.seat);
        Pass { seat, worker, left }
    }

    // A pass is taken by the writer.
    pub(crate) fn take(&self, seat: &mut WriterSeat, pass: Pass)
        requires table { seat.old.table ≡ self.now }
        requires pass { pass.table ≡ self.now }
        requires hand { seat.old.state.log.hand ≡ None }
        ensures table { seat.new.table ≡ seat.old.table }
        ensures state { seat.new.state ≡ taken_in seat.old.state pass.known }
        ensures whole { length seat.new.state.words ≡ self.now.words }
        ensures short { length seat.new.state.words < 2 ^ 32 }
    {
        let Pass {
            seat: other,
            worker,
            left: _,
        } = pass;
        self.table.shared.join_seat::<Take>(&mut seat.seat, other);
        set_window(&mut seat.windows, worker, 0);
        seat.mask = 0;
    }

    pub(crate) fn load(&self, seat: &mut WriterSeat, word: u32) -> u64
        requires table { seat.old.table ≡ self.now }
        requires place { word < length seat.old.state.words }
        ensures word { IsTold seat.old.state.windows word
            → result ≡ slice_index seat.old.state.words word }
        ensures seat { seat.new ≡ seat.old }
    {
        self.table
            .shared
            .load::<Read>(&mut seat.seat, word as usize)
    }

    pub(crate) fn store(&self, seat: &mut WriterSeat, word: u32, new: u64)
        requires table { seat.old.table ≡ self.now }
        requires place { word < length seat.old.state.words }
        requires apart { MayStore seat.old.state.words seat.old.state.windows word }
        ensures table { seat.new.table ≡ seat.old.table }
        ensures state { seat.new.state
            ≡ with_words seat.old.state (slice_set seat.old.state.words word new) }
    {
        self.table
            .shared
            .store::<Write>(&mut seat.seat, word as usize, new);
    }

    // The pin count of a block. It becomes a reading of this event.
    pub(crate) fn probe(&self, seat: &mut WriterSeat, at: u32) -> u64
        requires table { seat.old.table ≡ self.now }
        requires block { MayProbe seat.old.state.words seat.old.state.windows at }
        requires unrefused { has at (refused_in seat.old.state.readings) ≡ false }
        ensures table { seat.new.table ≡ seat.old.table }
        ensures state { seat.new.state ≡ probed seat.old.state at result }
        ensures met { MatchBool (result == 0)
            (has at (held_by seat.old.state.mask seat.old.state.windows) ≡ false)
            (is_named seat.old.state.windows at ≡ true) }
    {
        let found = self
            .table
            .shared
            .load::<Probe>(&mut seat.seat, at as usize + PIN_COUNT as usize);
        if found == 0 {
            close_windows(&mut seat.windows, at);
        } else {
            seat.mask |= holders(seat.windows.as_slice(), at);
        }
        found
    }

    // The worker in the hand makes its event.
    pub(crate) fn give<Q: Saying>(&self, seat: &mut WriterSeat, worker: u32, left: u32) -> Pass
        requires table { seat.old.table ≡ self.now }
        requires hand { seat.old.state.log.hand ≡ Some (in_hand seat.old.state.log.hand) }
        requires worker { (in_hand seat.old.state.log.hand).worker ≡ worker }
        requires left { (in_hand seat.old.state.log.hand).left ≡ left + 1 }
        requires event { Q.event.worker ≡ worker }
        ensures table { seat.new.table ≡ seat.old.table }
        ensures state { seat.new.state
            ≡ rested seat.old.state (with_event seat.old.state.log Q.event) }
        ensures pass { result.table ≡ self.now }
        ensures known { result.known ≡ known_after seat.old.state.log Q.event }
    {
        let own = self.table.shared.split_seat::<Give<Q>>(&mut seat.seat);
        seat.mask = 0;
        Pass {
            seat: own,
            worker,
            left,
        }
    }

    // The pass leaves the hand as it was.
    pub(crate) fn give_back(&self, seat: &mut WriterSeat, worker: u32, left: u32) -> Pass
        requires table { seat.old.table ≡ self.now }
        requires hand { seat.old.state.log.hand ≡ Some (in_hand seat.old.state.log.hand) }
        requires worker { (in_hand seat.old.state.log.hand).worker ≡ worker }
        requires left { (in_hand seat.old.state.log.hand).left ≡ left }
        ensures table { seat.new.table ≡ seat.old.table }
        ensures state { seat.new.state ≡ rested seat.old.state (with_hand seat.old.state.log None) }
        ensures pass { result.table ≡ self.now }
        ensures known { result.known ≡ in_hand seat.old.state.log.hand }
    {
        let own = self.table.shared.split_seat::<GiveBack>(&mut seat.seat);
        seat.mask = 0;
        Pass {
            seat: own,
            worker,
            left,
        }
    }

    // The pass leaves the hand, and has seen the whole history.
    pub(crate) fn give_seen(&self, seat: &mut WriterSeat, worker: u32, left: u32) -> Pass
        requires table { seat.old.table ≡ self.now }
        requires hand { seat.old.state.log.hand ≡ Some (in_hand seat.old.state.log.hand) }
        requires worker { (in_hand seat.old.state.log.hand).worker ≡ worker }
        requires left { (in_hand seat.old.state.log.hand).left ≡ left }
        ensures table { seat.new.table ≡ seat.old.table }
        ensures state { seat.new.state ≡ rested seat.old.state (with_hand seat.old.state.log None) }
        ensures pass { result.table ≡ self.now }
        ensures known { result.known ≡ seen_all seat.old.state.log }
    {
        let own = self.table.shared.split_seat::<GiveSeen>(&mut seat.seat);
        seat.mask = 0;
        Pass {
            seat: own,
            worker,
            left,
        }
    }

    // A pass is taken in at the end.
    pub(crate) fn take_in(&self, seat: &mut WriterSeat, pass: Pass)
        requires table { seat.old.table ≡ self.now }
        requires pass { pass.table ≡ self.now }
        requires hand { seat.old.state.log.hand ≡ None }
        ensures table { seat.new.table ≡ seat.old.table }
        ensures state { seat.new.state ≡ shut seat.old.state pass.known }
    {
        let Pass {
            seat: other,
            worker,
            left: _,
        } = pass;
        self.table.shared.join_seat::<Close>(&mut seat.seat, other);
        set_window(&mut seat.windows, worker, 0);
        seat.mask = 0;
    }

    // The words at the end, in the memory that was kept for them.
    pub(crate) fn dissolve(self, seat: WriterSeat) -> Vec<u64>
        requires table { seat.table ≡ self }
        requires every { (w : ℕ) → w < seat.state.log.made
            → has_worker w seat.state.log.closed ≡ true }
        ensures words { result.items ≡ seat.state.words }
        ensures short { length result.items < 2 ^ 32 }
    {
        let PinTable { table, mut row } = self;
        let WriterSeat {
            seat,
            windows: _,
            mask: _,
        } = seat;
        let closed = table.close_with(seat);
        copy_back(&closed, &mut row);
        closed.free();
        row
    }

    // One more pin, and the worker in the hand copies the block from then on.
    pub(crate) fn copy_out<Q: Saying>(
        &self,
        seat: &mut WriterSeat,
        worker: u32,
        left: u32,
        block: u32,
        first: u32,
        len: u32,
    ) -> Copying
        requires len { len ≡ slice_index seat.old.state.words (block + IMAGE_LENGTH) }
        requires first { first ≡ image_place seat.old.state.words block }
        requires table { seat.old.table ≡ self.now }
        requires block { IsBlock seat.old.state.words block }
        requires apart { MeetsNone seat.old.state.words seat.old.state.windows block }
        requires hand { seat.old.state.log.hand ≡ Some (in_hand seat.old.state.log.hand) }
        requires worker { (in_hand seat.old.state.log.hand).worker ≡ worker }
        requires left { (in_hand seat.old.state.log.hand).left ≡ left + 1 }
        requires event { Q.event.worker ≡ worker }
        requires fetch { is_fetch Q.event.request ≡ true }
        ensures table { seat.new.table ≡ seat.old.table }
        ensures state { seat.new.state ≡ copied (pinning_at seat.old.state block) Q.event }
        ensures copying { result.table ≡ self.now }
        ensures copy { result.copy ≡ reader_after (pinning_at seat.old.state block) Q.event }
    {
        self.table
            .shared
            .fetch_add::<Pin>(&mut seat.seat, block as usize + PIN_COUNT as usize, 1);
        let own = self.table.shared.split_seat::<CopyOut<Q>>(&mut seat.seat);
        set_window(&mut seat.windows, worker, block);
        seat.mask = 0;
        Copying {
            seat: own,
            worker,
            left,
            block,
            first,
            len,
        }
    }
}
