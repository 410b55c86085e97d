//! How a cache is opened.

ghost use Rattle.std.specs.Prelude.{◌≡◌, ℕ, ◌<◌, ◌≤◌, [], length, sum, IfOk, IfErr, IfSome, IfNone};
ghost use Rattle.pin_table.specs.Lists.{first_passes};
ghost use Rattle.shared_cache.specs.OpenedCaches.{AreBudgets, MayOpen};
ghost use Rattle.shared_cache.specs.declared.opening.OpenFault.TheVariants.{BadConf, Memory};

use crate::locked_cache::LockedCache;
use crate::lower::lower_laws;
use crate::shared::Shared;
use apcu_model::{Conf, Journal, MOST_EVENTS, MOST_WORKERS};
use cache_core::Core;
use max_tree::MaxRow;
use pin_table::{EndedList, Passes, PinTable, TableName, WriterSeat};
use seg_words::VecWords;
use std::alloc::{AllocError, Global};
use std::marker::Model;
use std::sync::Wait;

/// Why a cache was not opened.
#[derive(Clone, Copy, Debug, PartialEq, Eq)]
pub enum OpenFault {
    /// The shape is not one that a cache can have; or there are more than `MOST_WORKERS` budgets,
    /// one is 0, or their sum is above `MOST_EVENTS`.
    BadConf,
    /// There was not enough memory.
    Memory,
}

impl From<AllocError> for OpenFault {
    ghost from_gives = { λ _ e. e ≡ Memory };

    fn from(_e: AllocError) -> OpenFault {
        OpenFault::Memory
    }
}

// How many events the workers may make, all together; None if these are no budgets.
fn total(budgets: &[u32]) -> Option<u32>
    ensures some { IfSome result (λ n. n ≡ sum budgets.now) }
    ensures good { IfSome result (λ _. AreBudgets budgets.now) }
    ensures none { IfNone result (AreBudgets budgets.now → ⊥) }
{
    let mut events = 0u64;
    for budget in budgets {
        if *budget == 0 {
            return None;
        }
        events = events.saturating_add(u64::from(*budget));
        if events > MOST_EVENTS {
            return None;
        }
    }
    Some(events as u32)
}

/// A cache before it is shared. Contracts see its table, its shape, and how many events each worker
/// may make.
pub struct Fresh {
    alloc: Global,
    table: PinTable,
    seat: WriterSeat,
    passes: Passes,
    ended: EndedList,
    journal: Journal,
    core: Core,
}

impl Drop for Fresh {
    fn drop(self) {
        let Fresh {
            alloc: _,
            table: _,
            seat: _,
            passes: _,
            ended: _,
            journal: _,
            core: _,
        } = self;
    }
}

impl Model for Fresh {
    ghost use Rattle.cache_core.specs.CoreCache.{cache_of};
    ghost use Rattle.shared_cache.specs.OpenedCaches.{Opened, IsFreshCache};

    ghost Value = { Opened };

    ghost view = { λ f. record {
      table = f.table;
      conf = (cache_of f.core).conf;
      budgets = f.seat.state.log.budgets;
    } };

    ghost invariant = { λ f. IsFreshCache (record {
      table = f.table;
      conf = (cache_of f.core).conf;
      budgets = f.seat.state.log.budgets;
    }) f.seat f.core f.journal f.passes f.ended };
}

/// Opens an empty cache of this shape for as many workers as there are budgets: how many events
/// each may make, its end included. There are at most `MOST_WORKERS`, and all together at most
/// `MOST_EVENTS` of `apcu_model`.
///
/// All memory that the cache ever needs is taken here, except for what is copied out of it. `rt` is
/// the permission to wait, as `main`'s `HostRuntime` is; this call waits for nothing.
pub fn open_cache<R: Wait>(
    rt: &R,
    alloc: Global,
    conf: &Conf,
    budgets: &[u32],
) -> Result<Fresh, OpenFault>
    ensures conf { IfOk result (λ f. f.conf ≡ conf.now) }
    ensures budgets { IfOk result (λ f. f.budgets ≡ budgets.now) }
    ensures good { IfOk result (λ _. MayOpen conf.now budgets.now) }
    ensures bad { IfErr result (λ e. e ≡ BadConf → MayOpen conf.now budgets.now → ⊥) }
    ensures memory { IfErr result (λ e. e ≡ Memory → MayOpen conf.now budgets.now) }
{
    let _ = rt;
    if !conf.good() || budgets.len() > MOST_WORKERS as usize {
        return Err(OpenFault::BadConf);
    }
    let Some(events) = total(budgets) else {
        return Err(OpenFault::BadConf);
    };
    Ok(opened(alloc, conf, budgets, events)?)
}

// The cache, when only missing memory can prevent it.
fn opened(alloc: Global, conf: &Conf, budgets: &[u32], events: u32) -> Result<Fresh, AllocError>
    requires may { MayOpen conf.now budgets.now }
    requires events { events ≡ sum budgets.now }
    ensures conf { IfOk result (λ f. f.conf ≡ conf.now) }
    ensures budgets { IfOk result (λ f. f.budgets ≡ budgets.now) }
{
    lower_laws();
    let journal = Journal::new(alloc, events)?;
    let mut words = VecWords::new(alloc, conf.words)?;
    let gaps = MaxRow::new(alloc, conf.words as usize / 4 + 1)?;
    let core = Core::format(&mut words, conf, gaps);
    let (table, seat, passes, ended) = PinTable::new(alloc, words, budgets)?;
    Ok(Fresh {
        alloc,
        table,
        seat,
        passes,
        ended,
        journal,
        core,
    })
}

impl Fresh {
    /// The cache under a name of its table, shared by all that have it, with a pass for each
    /// worker, that of the last worker last, and a list that has room for the ends of all. The
    /// cache is empty and no worker has seen an event. It takes no memory.
    ///
    /// Call it in a function that is generic over `N: TableName` and requires that table, conf and
    /// budgets of `N` are those of the `Fresh`. Call that function with `std::marker::Brand` for
    /// `N`, and pick the three in the `Invariants.antt` of its caller. If it is `f`, and `fresh`
    /// its argument, that is
    ///
    ///     ghosts-f g a = record { table = a.fresh.table; conf = a.fresh.conf;
    ///         budgets = a.fresh.budgets }
    ///
    /// `both_work`, in `shared_tests/src/readme.rt`, is such a function, and a test calls it.
    pub fn name<N: TableName>(self) -> (Shared<N>, Passes, EndedList)
        requires table { N.table ≡ self.table }
        requires conf { N.conf ≡ self.conf }
        requires budgets { N.budgets ≡ self.budgets }
        ensures passes { result.1 ≡ first_passes N.table N.budgets (length N.budgets) }
        ensures ended { result.2.ended ≡ [] }
        ensures room { length N.budgets ≤ result.2.room }
    {
        let Fresh {
            alloc,
            table,
            seat,
            passes,
            ended,
            journal,
            core,
        } = self;
        (
            Shared::new(alloc, table, LockedCache::new(seat, journal, core)),
            passes,
            ended,
        )
    }
}
