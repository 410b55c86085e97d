//! The passes that workers begin with, and what is left of those that have ended.

ghost use Rattle.std.specs.Prelude.{◌≡◌, ℕ, ◌+◌, ◌<◌, ◌≤◌, true, false, List, [], ◌∷◌, ◌++◌};
ghost use Rattle.std.specs.Prelude.{length, slice_get, Some, None, IfOk, IfSome};
ghost use Rattle.std.specs.Prelude.{IfNone, vec_capacity, vec_len};
ghost use mathlib.Core.List.{IsPrefix};
ghost use Rattle.apcu_model.specs.declared.limits.TheConstants.{MOST_WORKERS};
ghost use Rattle.pin_table.specs.Events.{events_of};
ghost use Rattle.pin_table.specs.Views.{with_log, rested, has_worker};
ghost use Rattle.pin_table.specs.Lists.{first_log, first_state, first_passes, known_list, AllOf};
ghost use Rattle.pin_table.specs.Order.{StateInOrder};
ghost use Rattle.pin_table.specs.Values.{PassView};

use crate::pass::{Ended, Pass};
use crate::table::{PinTable, WriterSeat};
use seg_words::{VecWords, WordsIn};
use std::alloc::{AllocError, Global};
use std::marker::Model;

/// The passes of the workers that have not begun, as a list.
#[derive(Drop)]
pub struct Passes {
    list: Vec<Pass>,
}

impl Model for Passes {
    ghost use Rattle.std.specs.Prelude.{List};
    ghost use Rattle.pin_table.specs.Values.{PassView};

    ghost Value = { List PassView };

    ghost view = { λ p. p.list.items };
}

impl Passes {
    /// Takes the last of them: the pass of the worker with the greatest number.
    pub fn pop(&mut self) -> Option<Pass>
        ensures some { IfSome result (λ p. self.old ≡ self.new ++ p ∷ []) }
        ensures none { IfNone result ((self.old ≡ []) × (self.new ≡ [])) }
    {
        self.list.pop()
    }
}

/// What is left of the workers that have ended, with room for the others. Contracts see the list
/// and how many more it has room for.
#[derive(Drop)]
pub struct EndedList {
    list: Vec<Ended>,
}

impl Model for EndedList {
    ghost use Rattle.std.specs.Prelude.{◌-◌, ◌≤◌, length, vec_len, vec_capacity};
    ghost use Rattle.pin_table.specs.Lists.{Gathered};

    ghost Value = { Gathered };

    ghost view = { λ e.
        record { ended = e.list.items; room = vec_capacity e.list - vec_len e.list } };
}

impl EndedList {
    /// Adds one at the end. It allocates no memory: there is room for every worker of the table.
    pub fn push(&mut self, ended: Ended)
        requires { 0 < self.old.room }
        ensures ended { self.new.ended ≡ self.old.ended ++ ended ∷ [] }
        ensures room { self.new.room + 1 ≡ self.old.room }
    {
        self.list.push_reserved(ended);
    }

    fn pop(&mut self) -> Option<Ended>
        ensures some { IfSome result (λ p. self.old.ended ≡ self.new.ended ++ p ∷ []) }
        ensures none { IfNone result ((self.old.ended ≡ []) × (self.new.ended ≡ [])) }
        ensures fewer { IfSome result (λ p. length self.new.ended + 1 ≡ length self.old.ended) }
    {
        self.list.pop()
    }
}

fn fill(table: &PinTable, seat: &mut WriterSeat, budgets: &[u32], list: &mut Vec<Pass>)
    requires table { seat.old.table ≡ table.now }
    requires log { seat.old.state.log ≡ first_log budgets.now 0 }
    requires few { length budgets.now ≤ MOST_WORKERS }
    requires list { list.old.items ≡ [] }
    requires room { length budgets.now ≤ vec_capacity list.old }
    ensures table { seat.new.table ≡ seat.old.table }
    ensures state { seat.new.state
        ≡ with_log seat.old.state (first_log budgets.now (length budgets.now)) }
    ensures list { list.new.items ≡ first_passes table.now budgets.now (length budgets.now) }
{
    let mut i: usize = 0;
    while i < budgets.len() {
        let pass = table.make(seat, i as u32, budgets[i]);
        list.push_reserved(pass);
        i += 1;
    }
}

impl PinTable {
    /// Shares these words among as many workers as there are budgets: how many events each may
    /// make.
    ///
    /// It allocates all the memory that any call of this crate needs. After an `Err` the words are
    /// dropped.
    pub fn new(
        alloc: Global,
        words: VecWords,
        budgets: &[u32],
    ) -> Result<(PinTable, WriterSeat, Passes, EndedList), AllocError>
        requires words { 0 < length (⟦<VecWords as WordsIn>⟧.words words) }
        requires budgets { length budgets.now ≤ MOST_WORKERS }
        ensures table { IfOk result (λ r. r.1.table ≡ r.0) }
        ensures count { IfOk result (λ r.
            r.0.words ≡ length (⟦<VecWords as WordsIn>⟧.words words)) }
        ensures state { IfOk result (λ r.
            r.1.state ≡ first_state (⟦<VecWords as WordsIn>⟧.words words) budgets.now) }
        ensures passes { IfOk result (λ r.
            r.2 ≡ first_passes r.0 budgets.now (length budgets.now)) }
        ensures ended { IfOk result (λ r. r.3.ended ≡ []) }
        ensures room { IfOk result (λ r. length budgets.now ≤ r.3.room) }
    {
        let words = words.into_words();
        let count = budgets.len();
        let mut list = Vec::with_capacity(alloc, count)?;
        let ended = Vec::with_capacity(alloc, count)?;
        let windows = Vec::from_elem(alloc, 0u32, count)?;
        let own = budgets.to_vec(alloc)?;
        let (table, mut seat) = PinTable::of_words(alloc, words, own, windows)?;
        fill(&table, &mut seat, budgets, &mut list);
        Ok((table, seat, Passes { list }, EndedList { list: ended }))
    }

    /// Establishes that the writer's history begins with what a worker that has ended has seen.
    /// Nothing changes, since its window is closed and no event is in progress.
    #[tactic(auto, using(crate::proofs::LearnFacts::of_learn))]
    pub fn learn(&self, seat: &mut WriterSeat, ended: Ended) -> Ended
        requires table { seat.old.table ≡ self.now }
        requires ended { ended.table ≡ self.now }
        requires hand { seat.old.state.log.hand ≡ None }
        ensures table { seat.new.table ≡ seat.old.table }
        ensures state { seat.new.state ≡ rested seat.old.state seat.old.state.log }
        ensures seen { IsPrefix ended.known.seen seat.old.state.log.history }
        ensures own { events_of ended.known.worker seat.old.state.log.history ≡ ended.known.own }
        ensures made { events_of ended.known.worker ended.known.seen ≡ ended.known.own }
        ensures same { result ≡ ended }
    {
        let Ended { pass } = ended;
        let worker = pass.worker();
        let left = pass.left();
        self.look(seat);
        self.take(seat, pass);
        self.look(seat);
        let pass = self.give_back(seat, worker, left);
        Ended { pass }
    }

    /// Returns the words, after every worker has ended. It allocates no memory.
    pub fn close(self, mut seat: WriterSeat, ended: EndedList) -> VecWords
        requires table { seat.table ≡ self }
        requires ended { AllOf self ended.ended }
        requires hand { seat.state.log.hand ≡ None }
        requires every { (w : ℕ) → w < seat.state.log.made
            → has_worker w (known_list ended.ended) ≡ true }
        ensures words { ⟦<VecWords as WordsIn>⟧.words result ≡ seat.state.words }
        ensures seen { (k : ℕ) (b : PassView) → slice_get ended.ended k ≡ Some b
            → IsPrefix b.known.seen seat.state.log.history }
        ensures own { (k : ℕ) (b : PassView) → slice_get ended.ended k ≡ Some b
            → events_of b.known.worker seat.state.log.history ≡ b.known.own }
        ensures made { (k : ℕ) (b : PassView) → slice_get ended.ended k ≡ Some b
            → events_of b.known.worker b.known.seen ≡ b.known.own }
        ensures others { (w : ℕ) → has_worker w (known_list ended.ended) ≡ false
            → events_of w seat.state.log.history ≡ [] }
    {
        gather(&self, &mut seat, ended);
        VecWords::from_words(self.dissolve(seat))
    }

    /// Ends the table as `close` does, but without its words: they are dropped in place, and none
    /// is copied.
    pub fn end(self, mut seat: WriterSeat, ended: EndedList)
        requires table { seat.table ≡ self }
        requires ended { AllOf self ended.ended }
        requires hand { seat.state.log.hand ≡ None }
        requires every { (w : ℕ) → w < seat.state.log.made
            → has_worker w (known_list ended.ended) ≡ true }
        ensures seen { (k : ℕ) (b : PassView) → slice_get ended.ended k ≡ Some b
            → IsPrefix b.known.seen seat.state.log.history }
        ensures own { (k : ℕ) (b : PassView) → slice_get ended.ended k ≡ Some b
            → events_of b.known.worker seat.state.log.history ≡ b.known.own }
        ensures made { (k : ℕ) (b : PassView) → slice_get ended.ended k ≡ Some b
            → events_of b.known.worker b.known.seen ≡ b.known.own }
        ensures others { (w : ℕ) → has_worker w (known_list ended.ended) ≡ false
            → events_of w seat.state.log.history ≡ [] }
    {
        gather(&self, &mut seat, ended);
    }
}

fn gather(table: &PinTable, seat: &mut WriterSeat, mut ended: EndedList)
    requires table { seat.old.table ≡ table.now }
    requires ended { AllOf table.now ended.ended }
    requires hand { seat.old.state.log.hand ≡ None }
    ensures table { seat.new.table ≡ seat.old.table }
    ensures words { seat.new.state.words ≡ seat.old.state.words }
    ensures history { seat.new.state.log.history ≡ seat.old.state.log.history }
    ensures made { seat.new.state.log.made ≡ seat.old.state.log.made }
    ensures closed { seat.new.state.log.closed
        ≡ known_list ended.ended ++ seat.old.state.log.closed }
    ensures order { (copying : List ℕ) × StateInOrder seat.new.state copying }
{
    while let Some(e) = ended.pop() {
        let Ended { pass } = e;
        table.take_in(seat, pass);
    }
    table.look(seat);
}
