//! All scripts on one cache.

ghost use Rattle.std.specs.Prelude.{◌≡◌, ◌≢◌, ℕ, ◌-◌, ◌<◌, ◌≤◌, [], length, map, vec_capacity};
ghost use Rattle.std.specs.Prelude.{Contains, Ok, Err, IfOk, IfErr, IfSome, is_some, true};
ghost use Rattle.apcu_model.specs.Conf.{IsGood};
ghost use Rattle.pin_table.specs.Lists.{AllOf, known_list};
ghost use Rattle.pin_table.specs.Views.{has_worker};
ghost use Rattle.row_search.specs.declared.maker.SearchFault.TheVariants as searching;
ghost use Rattle.script_read.specs.Budgets.{budgets_of, all_events, most_events};
ghost use Rattle.script_read.specs.Clock.{all_timed};
ghost use Rattle.script_read.specs.Patterns.{SomeRefusable};
ghost use Rattle.crew_play.specs.PlayedScripts.{IsPlayed, IsLeftByPlay, ComeFirst};
ghost use Rattle.crew_play.specs.declared.order.Order.TheVariants.{LastFirst};
ghost use Rattle.crew_play.specs.declared.play.CrewFault.TheVariants.{Memory, TooMany, Pattern};
ghost use Rattle.shared_cache.specs.ClosedCaches.{IsClosed, IsClosedWhole};
ghost use Rattle.worker_play.specs.declared.script.PlayFault.TheVariants as faults;

use crate::budgets::budgets;
use crate::cast::Cast;
use crate::order::{Order, play_all};
use apcu_model::{Clock, Conf, Counts, Journal};
use cache_core::Core;
use io_edges::Gate;
use notation::ByteOut;
use pin_table::{EndedList, TableName};
use play_laws::{histories_are_plays, one_event_own};
use row_search::{Maker, SearchFault};
use script_read::Scripts;
use script_search::try_patterns;
use seg_words::VecWords;
use shared_cache::{Closed, Fresh, Shared, open_cache};
use std::alloc::{AllocError, Global};
use std::marker::Brand;
use std::sync::Wait;
use std::thread::Threads;
use worker_play::PlayFault;

/// Why the scripts were not all played to their ends.
#[derive(Clone, Copy, Debug, PartialEq, Eq)]
pub enum CrewFault {
    /// There was not enough memory: for the cache, or for what a worker fetches or prints.
    Memory,
    /// The calls may make more than 4,194,304 events, each worker's end included.
    TooMany,
    /// An iterator's pattern is invalid, or its regex is refused.
    Pattern,
}

impl From<AllocError> for CrewFault {
    ghost from_gives = { λ _ e. e ≡ Memory };

    fn from(_e: AllocError) -> CrewFault {
        CrewFault::Memory
    }
}

impl From<SearchFault> for CrewFault {
    ghost from_gives = { λ fault e.
        (e ≢ TooMany) × (e ≡ Pattern → fault ≢ searching.Memory) };

    fn from(fault: SearchFault) -> CrewFault {
        match fault {
            SearchFault::BadPattern | SearchFault::TooBig => CrewFault::Pattern,
            SearchFault::Memory => CrewFault::Memory,
        }
    }
}

/// The result, after all workers have ended.
#[derive(Drop)]
pub struct Played {
    /// The marks of all events, in the order in which they took effect.
    pub journal: Journal,
    /// The lines of each worker's calls, those of worker 0 first.
    pub texts: Vec<ByteOut>,
    /// The cache's counters.
    pub counts: Counts,
    /// The cache as it then is, if it was to be kept.
    pub left: Option<Left>,
}

/// A cache that is left after all workers have ended.
#[derive(Drop)]
pub struct Left {
    /// What it keeps outside its words.
    pub core: Core,
    /// The words that represent it.
    pub words: VecWords,
}

// The texts, if all workers have one. Out of memory is reported before a pattern, whichever worker
// had it.
fn whole(alloc: Global, texts: Vec<Result<ByteOut, PlayFault>>) -> Result<Vec<ByteOut>, CrewFault>
    ensures all { IfOk result (λ all. map Ok all.items ≡ texts.items) }
    ensures memory { Contains texts.items (Err faults.Memory) → result ≡ Err Memory }
    ensures pattern { IfErr result (λ e. e ≡ Pattern
        → Contains texts.items (Err faults.Pattern)) }
    ensures few { IfErr result (λ e. e ≢ TooMany) }
{
    let mut all = Vec::with_capacity(alloc, texts.len())?;
    let mut refused = false;
    for text in texts {
        match text {
            Ok(text) => all.push_reserved(text),
            Err(fault) => match fault {
                PlayFault::Memory => return Err(CrewFault::Memory),
                PlayFault::Pattern => refused = true,
            },
        }
    }
    if refused {
        return Err(CrewFault::Pattern);
    }
    Ok(all)
}

// Closes the cache after all workers have ended. Its words, of which there are as many as the cache
// is large, are copied only if it is to be kept.
fn close<N: TableName, R: Wait>(
    rt: &R,
    shared: Shared<N>,
    ended: EndedList,
    keep: bool,
) -> (Closed, Option<Left>)
    requires table { AllOf N.table ended.ended }
    requires every { (w : ℕ) → w < length N.budgets
        → has_worker w (known_list ended.ended) ≡ true }
    ensures closed { IsClosed N.conf (length N.budgets) ended.ended result.0 }
    ensures left { IfSome result.1 (λ l.
        IsClosedWhole N.conf (length N.budgets) ended.ended result.0 l.core l.words) }
    ensures kept { is_some result.1 ≡ keep }
{
    if keep {
        let (closed, core, words) = shared.close_all(rt, ended);
        (closed, Some(Left { core, words }))
    } else {
        (shared.close(rt, ended), None)
    }
}

// Plays the scripts on a cache under a name of its table.
fn play_named<
    N: TableName + Send + Sync,
    M: Maker + Sync,
    G: Gate + Sync,
    R: Threads + Wait + Sync,
>(
    rt: &R,
    cast: &Cast<M, G>,
    fresh: Fresh,
    texts: Vec<Result<ByteOut, PlayFault>>,
    order: Order,
    keep: bool,
) -> Result<Played, CrewFault>
    requires table { N.table ≡ fresh.table }
    requires conf { N.conf ≡ fresh.conf }
    requires budgets { N.budgets ≡ fresh.budgets }
    requires shape { fresh.conf ≡ cast.now.conf.now }
    requires events { fresh.budgets ≡ budgets_of cast.now.conf.now.slots cast.now.scripts.now }
    requires no_text { texts.items ≡ [] }
    requires places { length cast.now.scripts.now ≤ vec_capacity texts }
    requires some { order ≡ LastFirst → 1 ≤ length cast.now.scripts.now }
    ensures played { IfOk result (λ p. IsPlayed cast.now.conf.now
        (all_timed cast.now.clock cast.now.scripts.now) p.journal.marks p.texts.items p.counts) }
    ensures left { IfOk result (λ p. IfSome p.left (λ l. IsLeftByPlay cast.now.conf.now
        (all_timed cast.now.clock cast.now.scripts.now) p.journal.marks p.texts.items p.counts
        l.core l.words)) }
    ensures kept { IfOk result (λ p. is_some p.left ≡ keep) }
    ensures first { IfOk result (λ p. order ≡ LastFirst
        → ComeFirst (length cast.now.scripts.now - 1) p.journal.marks) }
    ensures pattern { IfErr result (λ e. e ≡ Pattern
        → SomeRefusable (M.may_refuse cast.now.maker.now) cast.now.scripts.now) }
    ensures few { IfErr result (λ e. e ≢ TooMany) }
{
    one_event_own();
    histories_are_plays();
    let (shared, passes, ended) = fresh.name::<N>();
    let (ended, texts) = play_all(rt, cast, &shared, passes, ended, texts, order);
    let (Closed { journal, counts }, left) = close::<N, R>(rt, shared, ended, keep);
    let texts = whole(cast.alloc, texts)?;
    Ok(Played {
        journal,
        texts,
        counts,
        left,
    })
}

// Plays the scripts in this order on a cache of this shape.
fn play_opened<M: Maker + Sync, G: Gate + Sync, R: Threads + Wait + Sync>(
    rt: &R,
    cast: &Cast<M, G>,
    order: Order,
    keep: bool,
) -> Result<Played, CrewFault>
    requires good { IsGood cast.now.conf.now }
    requires some { order ≡ LastFirst → 1 ≤ length cast.now.scripts.now }
    ensures played { IfOk result (λ p. IsPlayed cast.now.conf.now
        (all_timed cast.now.clock cast.now.scripts.now) p.journal.marks p.texts.items p.counts) }
    ensures left { IfOk result (λ p. IfSome p.left (λ l. IsLeftByPlay cast.now.conf.now
        (all_timed cast.now.clock cast.now.scripts.now) p.journal.marks p.texts.items p.counts
        l.core l.words)) }
    ensures kept { IfOk result (λ p. is_some p.left ≡ keep) }
    ensures first { IfOk result (λ p. order ≡ LastFirst
        → ComeFirst (length cast.now.scripts.now - 1) p.journal.marks) }
    ensures few { IfOk result (λ _.
        all_events cast.now.conf.now.slots cast.now.scripts.now ≤ most_events) }
    ensures many { IfErr result (λ e. e ≡ TooMany
        → most_events < all_events cast.now.conf.now.slots cast.now.scripts.now) }
    // A pattern of the scripts may be refused, and they are not too many.
    ensures pattern { IfErr result (λ e. e ≡ Pattern
        → (all_events cast.now.conf.now.slots cast.now.scripts.now ≤ most_events)
        × SomeRefusable (M.may_refuse cast.now.maker.now) cast.now.scripts.now) }
{
    let alloc = cast.alloc;
    let budgets = budgets(alloc, cast.conf.slots, cast.scripts)?;
    try_patterns(alloc, cast.maker, cast.scripts)?;
    let texts = Vec::with_capacity(alloc, cast.scripts.len() as usize)?;
    match open_cache(rt, alloc, cast.conf, &budgets) {
        Ok(fresh) => play_named::<Brand, M, G, R>(rt, cast, fresh, texts, order, keep),
        Err(_) => Err(CrewFault::Memory),
    }
}

/// Plays the scripts on a cache of this shape, each worker on a thread of its own, and returns the
/// journal, the lines of each worker's calls, and with `keep` the cache that is left. `maker`
/// compiles the patterns. The gate is called at each call of each worker, for each value that is
/// copied between its fetch and its copy, and at each step of an iterator.
///
/// `clock` decides what a call's moment is, as PHP's `apc.use_request_time` does: the second at
/// which it is made, or that at which its request began.
///
/// The journal is a play of the scripts as the clock sees them: each event is in it once, in its
/// worker's order, and each reply is the one that a single-threaded cache gives at that place. What
/// is left is that cache after it, with its counters and its words.
///
/// If the calls may make more than 4,194,304 events, each worker's end included, nothing is played.
/// Nor is it if a pattern cannot be compiled: each is compiled once before the cache is opened. A
/// worker that runs out of memory for a value, a regex or a line ends at once, the others play on,
/// and the result is `Memory`; the same applies to `Pattern` if the maker refuses a pattern only
/// then.
pub fn play_scripts<M: Maker + Sync, G: Gate + Sync, R: Threads + Wait + Sync>(
    rt: &R,
    alloc: Global,
    conf: &Conf,
    scripts: &Scripts,
    maker: &M,
    gate: &G,
    clock: Clock,
    keep: bool,
) -> Result<Played, CrewFault>
    requires good { IsGood conf.now }
    ensures played { IfOk result (λ p. IsPlayed conf.now (all_timed clock scripts.now)
        p.journal.marks p.texts.items p.counts) }
    ensures left { IfOk result (λ p. IfSome p.left (λ l. IsLeftByPlay conf.now
        (all_timed clock scripts.now) p.journal.marks p.texts.items p.counts l.core l.words)) }
    ensures kept { IfOk result (λ p. is_some p.left ≡ keep) }
    ensures few { IfOk result (λ _. all_events conf.now.slots scripts.now ≤ most_events) }
    ensures many { IfErr result (λ e. e ≡ TooMany
        → most_events < all_events conf.now.slots scripts.now) }
    // A pattern of the scripts may be refused, and they are not too many.
    ensures pattern { IfErr result (λ e. e ≡ Pattern
        → (all_events conf.now.slots scripts.now ≤ most_events)
        × SomeRefusable (M.may_refuse maker.now) scripts.now) }
{
    let cast = Cast {
        alloc,
        conf,
        scripts,
        maker,
        gate,
        clock,
    };
    play_opened(rt, &cast, Order::Together, keep)
}

/// Plays the scripts as `play_scripts` does, with all that it promises, but the last worker's
/// first: it is a loader, which plays alone and reaches its end before another one starts. Each of
/// the others learns of that end before it starts. So the journal begins with the loader's marks,
/// and has none of it after them.
///
/// If the loader runs out of memory, or its pattern is refused, the others play on.
pub fn play_loaded<M: Maker + Sync, G: Gate + Sync, R: Threads + Wait + Sync>(
    rt: &R,
    alloc: Global,
    conf: &Conf,
    scripts: &Scripts,
    maker: &M,
    gate: &G,
    clock: Clock,
    keep: bool,
) -> Result<Played, CrewFault>
    requires good { IsGood conf.now }
    requires some { 1 ≤ length scripts.now }
    ensures played { IfOk result (λ p. IsPlayed conf.now (all_timed clock scripts.now)
        p.journal.marks p.texts.items p.counts) }
    ensures left { IfOk result (λ p. IfSome p.left (λ l. IsLeftByPlay conf.now
        (all_timed clock scripts.now) p.journal.marks p.texts.items p.counts l.core l.words)) }
    ensures kept { IfOk result (λ p. is_some p.left ≡ keep) }
    ensures first { IfOk result (λ p. ComeFirst (length scripts.now - 1) p.journal.marks) }
    ensures few { IfOk result (λ _. all_events conf.now.slots scripts.now ≤ most_events) }
    ensures many { IfErr result (λ e. e ≡ TooMany
        → most_events < all_events conf.now.slots scripts.now) }
    // A pattern of the scripts may be refused, and they are not too many.
    ensures pattern { IfErr result (λ e. e ≡ Pattern
        → (all_events conf.now.slots scripts.now ≤ most_events)
        × SomeRefusable (M.may_refuse maker.now) scripts.now) }
{
    let cast = Cast {
        alloc,
        conf,
        scripts,
        maker,
        gate,
        clock,
    };
    play_opened(rt, &cast, Order::LastFirst, keep)
}
