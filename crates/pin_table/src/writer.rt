//! One event's hold on the words, as a segment.

ghost use Rattle.std.specs.Prelude.{◌≡◌, ℕ, ◌==◌, ◌+◌, ◌<◌, ◌≤◌, ◌^◌, true, false, ◌∷◌};
ghost use Rattle.std.specs.Prelude.{length, slice_index, Some, None, sum, List};
ghost use mathlib.Core.List.{IsPrefix};
ghost use Rattle.seg_words.specs.declared.layout.TheConstants.{IMAGE_LENGTH};
ghost use Rattle.seg_words.specs.Windows.{Frees, Refuses, has};
ghost use Rattle.seg_words.specs.Blocks.{MayProbe, image_place};
ghost use Rattle.apcu_model.specs.declared.request.Request.TheVariants as request;
ghost use Rattle.pin_table.specs.Events.{event, events_of, is_fetch};
ghost use Rattle.apcu_model.specs.Asking.{asked};
ghost use Rattle.pin_table.specs.Pins.{IsBlock, MeetsNone, MayPin};
ghost use Rattle.pin_table.specs.Views.{in_hand, taken_in, rested, with_hand, with_event};
ghost use Rattle.pin_table.specs.Views.{known_after};
ghost use Rattle.pin_table.specs.Views.{seen_all, pinning_at, copied, reader_after, aside_of};
ghost use Rattle.pin_table.specs.Order.{StateInOrder};

use crate::copying::Copying;
use crate::pass::{Ended, Pass};
use crate::rule::Saying;
use crate::table::{PinTable, WriterSeat};
use apcu_model::Ask;
use seg_words::{HEAD_WORDS, IMAGE_LENGTH, KEY_LENGTH, Segment, WordsIn};
use std::marker::Brand;

/// All that a writer has besides its words and what its event's probes found. No value of it is
/// made.
pub struct WriterRest {
    pub name: u64,
    pub worker: u32,
    pub left: u32,
    pub seat: WriterSeat,
}

/// One event's hold on the words, as a segment for all layers that work on one.
///
/// It is linear: each way out of an event ends it by one of the five calls that begin with `give`.
pub struct Writer<'a> {
    pub table: &'a PinTable,
    pub seat: &'a mut WriterSeat,
    pub worker: u32,
    pub left: u32,
    ghost same_table: { seat.now.table ≡ table.now },
    ghost whole: { length seat.now.state.words ≡ table.now.words },
    ghost short: { length seat.now.state.words < 2 ^ 32 },
}

impl WordsIn for Writer<'_> {
    type Rest = WriterRest;

    ghost use Rattle.pin_table.specs.WriterRest.{rest_of};

    ghost words = { λ w. w.seat.now.state.words };

    ghost aside = { λ w. aside_of w.seat.now.state };

    ghost rest = { rest_of };

    ghost short = { λ w. w.short };

    fn len(&self) -> u32 {
        self.table.len()
    }

    fn load(&mut self, i: u32) -> u64 {
        self.table.load(self.seat, i)
    }
}

impl Segment for Writer<'_> {
    ghost use Rattle.std.specs.Prelude.{◌≡◌, ℕ, ◌==◌, true, false, ◌∷◌};
    ghost use Rattle.seg_words.specs.Windows.{has, Frees, Refuses};
    ghost use Rattle.seg_words.specs.Blocks.{MayProbe};
    ghost use Rattle.pin_table.specs.Views.{aside_of};
    ghost use Rattle.pin_table.specs.WriterRest.{rest_of};

    // A load is far cheaper than a store, and many words are written with what they are.
    fn store(&mut self, i: u32, w: u64) {
        if self.table.load(self.seat, i) != w {
            self.table.store(self.seat, i, w);
        }
    }

    fn mask(&self) -> u64 {
        self.seat.mask()
    }

    // The result is that of one load of the pin count, and the event keeps that reading.
    fn probe(&mut self, at: u32) -> bool
        requires block { MayProbe self.old.seat.now.state.words self.old.seat.now.state.windows at }
        requires unrefused { has at (aside_of self.old.seat.now.state).refused ≡ false }
        ensures words { self.new.seat.now.state.words ≡ self.old.seat.now.state.words }
        ensures free { result ≡ true
            → Frees (aside_of self.old.seat.now.state) (aside_of self.new.seat.now.state) at }
        ensures held { result ≡ false
            → Refuses (aside_of self.old.seat.now.state) (aside_of self.new.seat.now.state) at }
        ensures rest { rest_of self.new ≡ rest_of self.old }
        ensures reading { (n : ℕ)
            × (self.new.seat.now.state.readings ≡ (at, n) ∷ self.old.seat.now.state.readings)
            × (result ≡ (n == 0)) }
    {
        self.table.probe(self.seat, at) == 0
    }
}

impl PinTable {
    /// Begins an event: the writer takes the pass, its worker's window closes, and the mask is
    /// empty.
    pub fn writer<'a>(&'a self, seat: &'a mut WriterSeat, pass: Pass) -> Writer<'a>
        requires table { seat.old.table ≡ self.now }
        requires pass { pass.table ≡ self.now }
        requires hand { seat.old.state.log.hand ≡ None }
        requires left { 1 ≤ pass.known.left }
        ensures same_reference { result.seat.ghost_name ≡ seat.entry.ghost_name }
        ensures table { result.table.now ≡ self.now }
        ensures state { result.seat.now.state ≡ taken_in seat.old.state pass.known }
        ensures worker { result.worker ≡ pass.known.worker }
        ensures left { result.left ≡ pass.known.left }
        ensures seen { IsPrefix pass.known.seen seat.old.state.log.history }
        ensures own { events_of pass.known.worker seat.old.state.log.history ≡ pass.known.own }
        ensures made { events_of pass.known.worker pass.known.seen ≡ pass.known.own }
        ensures room { length seat.old.state.log.history + pass.known.left
            ≤ sum seat.old.state.log.budgets }
        ensures order { (copying : List ℕ) × StateInOrder result.seat.now.state copying }
    {
        let worker = pass.worker();
        let left = pass.left();
        self.take(seat, pass);
        self.look(seat);
        Writer {
            table: self,
            seat,
            worker,
            left,
        }
    }
}

impl Writer<'_> {
    /// Ends the event: it becomes the last of the history, with the mask that its probes gathered.
    /// The returned pass has seen it, and has one event less left.
    pub fn give_pass(self, ask: Ask<'_>, t: u64) -> Pass
        requires hand { self.seat.now.state.log.hand ≡ Some (in_hand self.seat.now.state.log.hand) }
        requires worker { (in_hand self.seat.now.state.log.hand).worker ≡ self.worker }
        requires left { (in_hand self.seat.now.state.log.hand).left ≡ self.left }
        requires budget { 1 ≤ self.left }
        ensures table { self.exit.1.0.now.table ≡ self.entry.seat.now.table }
        ensures state { self.exit.1.0.now.state
            ≡ rested self.entry.seat.now.state (with_event self.entry.seat.now.state.log
            (event self.entry.worker t (asked ask.entry) self.entry.seat.now.state.mask)) }
        ensures pass { result.table ≡ self.entry.seat.now.table }
        ensures known { result.known
            ≡ known_after self.entry.seat.now.state.log
            (event self.entry.worker t (asked ask.entry) self.entry.seat.now.state.mask) }
        ensures order { (copying : List ℕ) × StateInOrder self.entry.seat.now.state copying }
    {
        let Writer {
            table,
            seat,
            worker,
            left,
        } = self;
        table.look(seat);
        let mask = seat.mask;
        give_as::<Brand>(table, seat, worker, left - 1, ask, t, mask)
    }

    /// The worker's last event: its end, at the moment 0.
    pub fn give_ended(self) -> Ended
        requires hand { self.seat.now.state.log.hand ≡ Some (in_hand self.seat.now.state.log.hand) }
        requires worker { (in_hand self.seat.now.state.log.hand).worker ≡ self.worker }
        requires left { (in_hand self.seat.now.state.log.hand).left ≡ self.left }
        requires budget { 1 ≤ self.left }
        ensures table { self.exit.1.0.now.table ≡ self.entry.seat.now.table }
        ensures state { self.exit.1.0.now.state
            ≡ rested self.entry.seat.now.state (with_event self.entry.seat.now.state.log
            (event self.entry.worker 0 request.Retire self.entry.seat.now.state.mask)) }
        ensures ended { result.table ≡ self.entry.seat.now.table }
        ensures known { result.known
            ≡ known_after self.entry.seat.now.state.log
            (event self.entry.worker 0 request.Retire self.entry.seat.now.state.mask) }
        ensures order { (copying : List ℕ) × StateInOrder self.entry.seat.now.state copying }
    {
        Ended::of(self.give_pass(Ask::Retire, 0))
    }

    /// There was no event: the history is unchanged, and the pass is as it was when it was taken.
    pub fn give_back(self) -> Pass
        requires hand { self.seat.now.state.log.hand ≡ Some (in_hand self.seat.now.state.log.hand) }
        requires worker { (in_hand self.seat.now.state.log.hand).worker ≡ self.worker }
        requires left { (in_hand self.seat.now.state.log.hand).left ≡ self.left }
        ensures table { self.exit.1.0.now.table ≡ self.entry.seat.now.table }
        ensures state { self.exit.1.0.now.state
            ≡ rested self.entry.seat.now.state (with_hand self.entry.seat.now.state.log None) }
        ensures pass { result.table ≡ self.entry.seat.now.table }
        ensures known { result.known ≡ in_hand self.entry.seat.now.state.log.hand }
    {
        let Writer {
            table,
            seat,
            worker,
            left,
        } = self;
        table.give_back(seat, worker, left)
    }

    /// There was no event, as with `give_back`, but the returned pass has seen the whole history.
    pub fn give_seen(self) -> Pass
        requires hand { self.seat.now.state.log.hand ≡ Some (in_hand self.seat.now.state.log.hand) }
        requires worker { (in_hand self.seat.now.state.log.hand).worker ≡ self.worker }
        requires left { (in_hand self.seat.now.state.log.hand).left ≡ self.left }
        ensures table { self.exit.1.0.now.table ≡ self.entry.seat.now.table }
        ensures state { self.exit.1.0.now.state
            ≡ rested self.entry.seat.now.state (with_hand self.entry.seat.now.state.log None) }
        ensures pass { result.table ≡ self.entry.seat.now.table }
        ensures known { result.known ≡ seen_all self.entry.seat.now.state.log }
    {
        let Writer {
            table,
            seat,
            worker,
            left,
        } = self;
        table.give_seen(seat, worker, left)
    }

    /// Ends the event of a fetch, as `give_pass` does, and pins the block at `at`: the worker
    /// copies from it from then on, until it releases it.
    pub fn give_copying(self, ask: Ask<'_>, t: u64, at: u32) -> Copying
        requires hand { self.seat.now.state.log.hand ≡ Some (in_hand self.seat.now.state.log.hand) }
        requires worker { (in_hand self.seat.now.state.log.hand).worker ≡ self.worker }
        requires left { (in_hand self.seat.now.state.log.hand).left ≡ self.left }
        requires budget { 1 ≤ self.left }
        requires fetch { is_fetch (asked ask) ≡ true }
        requires block { MayPin self.seat.now.state.words self.seat.now.state.windows at }
        ensures table { self.exit.1.0.now.table ≡ self.entry.seat.now.table }
        ensures state { self.exit.1.0.now.state
            ≡ copied (pinning_at self.entry.seat.now.state at)
            (event self.entry.worker t (asked ask.entry) self.entry.seat.now.state.mask) }
        ensures copying { result.table ≡ self.entry.seat.now.table }
        ensures copy { result.copy
            ≡ reader_after (pinning_at self.entry.seat.now.state at)
            (event self.entry.worker t (asked ask.entry) self.entry.seat.now.state.mask) }
        ensures order { (copying : List ℕ) × StateInOrder self.entry.seat.now.state copying }
    {
        let Writer {
            table,
            seat,
            worker,
            left,
        } = self;
        table.look(seat);
        let mask = seat.mask;
        let bytes = table.load(seat, at + KEY_LENGTH);
        let len = table.load(seat, at + IMAGE_LENGTH);
        let first = u64::from(at) + HEAD_WORDS as u64 + (bytes + 7) / 8;
        copy_as::<Brand>(
            table,
            seat,
            worker,
            left - 1,
            at,
            first as u32,
            len as u32,
            ask,
            t,
            mask,
        )
    }
}

// Here the event is picked: a borrowed request is a request in contracts only.
fn give_as<Q: Saying>(
    table: &PinTable,
    seat: &mut WriterSeat,
    worker: u32,
    left: u32,
    ask: Ask<'_>,
    t: u64,
    mask: u64,
) -> Pass
    requires table { seat.old.table ≡ table.now }
    requires hand { seat.old.state.log.hand ≡ Some (in_hand seat.old.state.log.hand) }
    requires worker { (in_hand seat.old.state.log.hand).worker ≡ worker }
    requires left { (in_hand seat.old.state.log.hand).left ≡ left + 1 }
    requires event { Q.event ≡ event worker t (asked ask) mask }
    ensures table { seat.new.table ≡ seat.old.table }
    ensures state { seat.new.state
        ≡ rested seat.old.state (with_event seat.old.state.log
        (event worker t (asked ask.entry) mask)) }
    ensures pass { result.table ≡ table.entry.now }
    ensures known { result.known
        ≡ known_after seat.old.state.log (event worker t (asked ask.entry) mask) }
{
    table.give::<Q>(seat, worker, left)
}

fn copy_as<Q: Saying>(
    table: &PinTable,
    seat: &mut WriterSeat,
    worker: u32,
    left: u32,
    at: u32,
    first: u32,
    len: u32,
    ask: Ask<'_>,
    t: u64,
    mask: u64,
) -> Copying
    requires len { len ≡ slice_index seat.old.state.words (at + IMAGE_LENGTH) }
    requires first { first ≡ image_place seat.old.state.words at }
    requires table { seat.old.table ≡ table.now }
    requires block { IsBlock seat.old.state.words at }
    requires apart { MeetsNone seat.old.state.words seat.old.state.windows at }
    requires hand { seat.old.state.log.hand ≡ Some (in_hand seat.old.state.log.hand) }
    requires worker { (in_hand seat.old.state.log.hand).worker ≡ worker }
    requires left { (in_hand seat.old.state.log.hand).left ≡ left + 1 }
    requires event { Q.event ≡ event worker t (asked ask) mask }
    requires fetch { is_fetch (asked ask) ≡ true }
    ensures table { seat.new.table ≡ seat.old.table }
    ensures state { seat.new.state
        ≡ copied (pinning_at seat.old.state at) (event worker t (asked ask.entry) mask) }
    ensures copying { result.table ≡ table.entry.now }
    ensures copy { result.copy
        ≡ reader_after (pinning_at seat.old.state at) (event worker t (asked ask.entry) mask) }
{
    table.copy_out::<Q>(seat, worker, left, at, first, len)
}
