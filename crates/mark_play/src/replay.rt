//! A replay: the events of a journal, one after the other.

ghost use Rattle.std.specs.Prelude.{◌≡◌, ℕ, ◌+◌, ◌<◌, ◌≤◌, length, None, IfOk, OnOk, OnErr};
ghost use Rattle.std.specs.Prelude.{slice_index_or};
ghost use Rattle.apcu_model.specs.Conf.{IsUsable};
ghost use Rattle.apcu_model.specs.declared.journal.TheConstants.{MOST_EVENTS};
ghost use Rattle.apcu_model.specs.declared.limits.TheConstants.{MOST_WORKERS};
ghost use Rattle.apcu_model.specs.Asking.{asked};
ghost use Rattle.apcu_model.specs.History.{start_of, is_legal_mask, reply_in, after_event};
ghost use Rattle.mark_play.specs.Asks.{MayBeAsked};
ghost use Rattle.mark_play.specs.Events.{event_by};

use crate::answering::{Window, answer};
use crate::holding::begin_event;
use crate::legal::is_legal;
use crate::reached::{Asked, Reached};
use apcu_model::{Ask, Conf, MOST_WORKERS, Reply};
use cache_core::Core;
use max_tree::MaxRow;
use row_search::Search;
use seg_words::{HeldWords, WordsIn};
use std::alloc::{AllocError, Global};
use std::marker::Model;

/// A play of a journal by one thread, one event after the other, on the cache over words. Contracts
/// see the stage that it has reached, and how many more events it can play.
///
/// It keeps for each of `MOST_WORKERS` workers which row its last event fetched. In an event whose
/// mask names workers, the blocks of those rows are held, as by copies in progress.
pub struct Replay {
    core: Core,
    words: HeldWords,
    windows: Vec<Option<Window>>,
    left: u32,
    reached: Reached,
}

impl Drop for Replay {
    fn drop(self) {
        let Replay {
            core: _,
            words: _,
            windows: _,
            left: _,
            reached: _,
        } = self;
    }
}

impl Model for Replay {
    ghost use Rattle.mark_play.specs.ReplayStages.{Replayed, IsReached};

    ghost Value = { Replayed };

    ghost view = { λ s. record { stage = s.reached.state; left = s.left } };

    ghost invariant = { λ s. IsReached ⟦<HeldWords as WordsIn>⟧ s.core s.words s.windows.items
        s.reached.state s.left };
}

// No worker has a window.
fn no_windows(alloc: Global) -> Result<Vec<Option<Window>>, AllocError>
    ensures full { IfOk result (λ w. length w.items ≡ MOST_WORKERS) }
    ensures none { IfOk result (λ w. (v : ℕ) → slice_index_or w.items v None ≡ None) }
{
    let mut windows = Vec::with_capacity(alloc, MOST_WORKERS as usize)?;
    for _worker in 0..MOST_WORKERS {
        windows.push(None)?;
    }
    Ok(windows)
}

impl Replay {
    /// Begins with an empty cache of this shape, for at most `events` events. All words are
    /// allocated here.
    pub fn new(alloc: Global, conf: &Conf, events: u32) -> Result<Replay, AllocError>
        requires usable { IsUsable conf.now }
        requires few { events ≤ MOST_EVENTS }
        ensures { IfOk result (λ r. r ≡ record { stage = start_of conf.now; left = events }) }
    {
        let windows = no_windows(alloc)?;
        let mut words = HeldWords::new(alloc, conf.words)?;
        let gaps = MaxRow::new(alloc, conf.words as usize / 4 + 1)?;
        let core = Core::format(&mut words, conf, gaps);
        let reached = Reached::start(conf);
        Ok(Replay {
            core,
            words,
            windows,
            left: events,
            reached,
        })
    }

    /// Whether the mask is legal for an event of the worker now: each worker in it is another one
    /// below `workers`, and its last event fetched a value that is copied outside the lock.
    pub fn is_legal(&self, workers: u32, worker: u32, mask: u64) -> bool
        ensures { result ≡ is_legal_mask workers worker self.now.stage mask }
    {
        is_legal(&self.windows, workers, worker, mask)
    }

    /// Plays an event: the worker makes the request at the moment `t`, in seconds, with this mask.
    /// The reply, and the stage after it, are those of the single-threaded cache at the current
    /// stage. If the request is a step of an iterator, `search` is the one for it.
    ///
    /// Memory is taken for the reply and for the key of a fetch, before anything changes.
    pub fn play(
        &mut self,
        alloc: Global,
        worker: u32,
        mask: u64,
        ask: Ask<'_>,
        search: &mut Search,
        t: u64,
    ) -> Result<Reply, AllocError>
        requires worker { worker < MOST_WORKERS }
        requires left { 0 < self.old.left }
        requires may { MayBeAsked self.old.stage.cache.conf search.old (asked ask) }
        ensures reply { IfOk result (λ y. y
            ≡ reply_in self.old.stage (event_by worker mask (asked ask.entry) t)) }
        ensures stage { OnOk result (self.new.stage
            ≡ after_event self.old.stage (event_by worker mask (asked ask.entry) t)) }
        ensures shape { OnOk result
            (self.new.stage.cache.conf ≡ self.old.stage.cache.conf) }
        ensures left { OnOk result (self.new.left + 1 ≡ self.old.left) }
        ensures same { OnErr result (self.new ≡ self.old) }
        ensures search { search.new ≡ search.old }
    {
        begin_event(&mut self.core, &mut self.words, &self.windows, mask);
        let (reply, window) = answer(alloc, &mut self.core, &mut self.words, ask, search, t)?;
        self.windows[worker as usize] = window;
        self.left -= 1;
        self.reached = self.reached.then(&Asked::By {
            worker,
            t,
            ask,
            mask,
        });
        Ok(reply)
    }
}
