//! Printing a play.

ghost use Rattle.std.specs.Prelude.{◌≡◌, ◌≢◌, ◌<◌, ◌≤◌, ◌++◌, length, IfOk, IfErr, IfSome, OnOk};
ghost use Rattle.seg_words.specs.contracts.vec_words.VecWordsWordsIn.TheImpl as held;
ghost use Rattle.apcu_model.specs.declared.limits.TheConstants.{MOST_WORKERS};
ghost use Rattle.apcu_model.specs.Conf.{IsGood};
ghost use Rattle.cache_core.specs.CoreCache.{CacheStands};
ghost use Rattle.script_read.specs.Budgets.{all_events, most_events};
ghost use Rattle.script_read.specs.Patterns.{SomeRefusable};
ghost use Rattle.crew_play.specs.declared.play.CrewFault.TheVariants.{TooMany, Pattern};
ghost use Rattle.play_laws.specs.Summary.{IsLarge};
ghost use Rattle.apcu_play.specs.Tasks.{AnswersSeed, generated_events};
ghost use Rattle.apcu_play.specs.Printing.{PrintsCrew, printed_rest};
ghost use Rattle.reply_text.specs.Output.{worker_texts};

use crate::journal::write_journal;
use crate::status::Status;
use crate::summary::write_summary;
use apcu_model::Conf;
use conf_read::Settings;
use crew_play::{CrewFault, Left, Played, play_generated, play_loaded, play_scripts};
use io_edges::Gate;
use notation::ByteOut;
use row_search::Maker;
use script_read::Scripts;
use seg_report::map_text;
use std::alloc::{AllocError, Global};
use std::sync::Wait;
use std::thread::Threads;

/// The output of a run: the lines of each worker, and then the rest: the journal's lines, with or
/// without a map after them, those of a summary, or that of a verdict. They are written one after
/// the other without being gathered, so no reply is copied again.
#[derive(Drop)]
pub(crate) struct Printed {
    pub(crate) texts: Vec<ByteOut>,
    pub(crate) rest: ByteOut,
    /// The status of a run that has written all of it.
    pub(crate) ends: Status,
}

// The output of scripts that were played, with a map of the cache if one is left.
fn printed_of(alloc: Global, played: Played) -> Result<Printed, AllocError>
    requires stand { IfSome played.left (λ l. CacheStands held.ghosts l.core l.words) }
    ensures texts { IfOk result (λ p. p.texts.items ≡ played.texts.items) }
    ensures rest { IfOk result (λ p. p.rest ≡ printed_rest played.journal.marks played.left) }
    ensures ends { IfOk result (λ p. p.ends ≡ Status.Done) }
{
    let Played {
        journal,
        texts,
        counts: _,
        left,
    } = played;
    let mut rest = ByteOut::new(alloc);
    write_journal(&mut rest, &journal)?;
    if let Some(
        Left {
            mut core,
            mut words,
        },
    ) = left
    {
        map_text(&mut core, &mut words, &mut rest)?;
    }
    Ok(Printed {
        texts,
        rest,
        ends: Status::Done,
    })
}

/// Plays the scripts under a clock, each worker on a thread of its own, and gathers what is
/// printed: the lines of each worker, the journal, and the map if it is wanted. If a bundle is
/// loaded, the last script is its loader's, which ends before any other begins. Nothing is played
/// if the calls may make more than 4,194,304 events, each worker's end included.
pub(crate) fn play<R: Threads + Wait + Sync, M: Maker + Sync, G: Gate + Sync>(
    rt: &R,
    alloc: Global,
    settings: &Settings,
    scripts: &Scripts,
    preload: Option<u64>,
    map: bool,
    maker: &M,
    gate: &G,
) -> Result<Printed, CrewFault>
    requires good { IsGood settings.now.conf }
    requires some { IfSome preload (λ _. 1 ≤ length scripts.now) }
    ensures output { IfOk result (λ p. PrintsCrew settings.now.conf settings.now.clock
        preload map scripts.now (worker_texts 0 p.texts.items ++ p.rest)) }
    ensures ends { IfOk result (λ p. p.ends ≡ Status.Done) }
    ensures few { OnOk result (all_events settings.now.conf.slots scripts.now ≤ most_events) }
    ensures many { IfErr result (λ e. e ≡ TooMany
        → most_events < all_events settings.now.conf.slots scripts.now) }
    ensures pattern { IfErr result (λ e. e ≡ Pattern
        → (all_events settings.now.conf.slots scripts.now ≤ most_events)
        × SomeRefusable (M.may_refuse maker.now) scripts.now) }
{
    let conf = &settings.conf;
    let clock = settings.clock;
    match preload {
        None => {
            let played = play_scripts(rt, alloc, conf, scripts, maker, gate, clock, map)?;
            Ok(printed_of(alloc, played)?)
        }
        Some(_) => {
            let played = play_loaded(rt, alloc, conf, scripts, maker, gate, clock, map)?;
            Ok(printed_of(alloc, played)?)
        }
    }
}

/// Plays scripts that are made from a number, and gathers the summary that is printed of them.
/// Nothing is played if they make more than 4,194,304 events, the observer's nine included.
pub(crate) fn watch<R: Threads + Wait + Sync, M: Maker + Sync, G: Gate + Sync>(
    rt: &R,
    alloc: Global,
    conf: &Conf,
    seed: u64,
    workers: u32,
    calls: u32,
    maker: &M,
    gate: &G,
) -> Result<Printed, CrewFault>
    requires large { IsLarge conf.now }
    requires some { 1 ≤ workers }
    requires most { workers ≤ MOST_WORKERS }
    requires short { calls ≤ 1000000 }
    ensures answer { IfOk result (λ p. AnswersSeed conf.now seed workers calls
        (worker_texts 0 p.texts.items ++ p.rest)) }
    ensures many { IfErr result (λ e. e ≡ TooMany
        → most_events < generated_events workers calls) }
    ensures patterns { IfErr result (λ e. e ≢ Pattern) }
    ensures ends { IfOk result (λ p. p.ends ≡ Status.Done) }
{
    let watched = play_generated(rt, alloc, conf, seed, workers, calls, maker, gate)?;
    let mut lines = ByteOut::new(alloc);
    write_summary(&mut lines, workers, calls, &watched)?;
    Ok(Printed {
        texts: Vec::new(alloc),
        rest: lines,
        ends: Status::Done,
    })
}
