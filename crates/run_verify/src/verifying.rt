//! Judging an output: its journal part is played line by line, and then the output is compared with
//! what those events print.

ghost use Rattle.std.specs.Prelude.{◌≡◌, ◌≤◌, ◌-◌, ◌++◌, length, drop, Some, IfOk, IfErr, OnOk};
ghost use Rattle.apcu_model.specs.Conf.{IsGood};
ghost use Rattle.reply_text.specs.Output.{worker_texts};
ghost use Rattle.script_read.specs.Budgets.{all_events, most_events};
ghost use Rattle.script_read.specs.Clock.{all_timed};
ghost use Rattle.script_read.specs.Patterns.{SomeRefusable};
ghost use Rattle.run_verify.specs.Verdicts.{verdict_of, journal_part, byte_verdict};
ghost use Rattle.run_verify.specs.Verdicts.{first_difference};
ghost use Rattle.script_search.specs.ReadPatterns.{AreReadable};
ghost use Rattle.run_verify.specs.declared.fault.VerifyFault.TheVariants.{Pattern};

use crate::comparing::difference;
use crate::fault::VerifyFault;
use crate::game_so_far::{GameSoFar, Unplayed};
use crate::marks::play_mark;
use crate::reading::{journal_at, line_end, read_mark};
use crate::seats::{all_done, into_texts, seats_for};
use apcu_model::{Clock, Conf};
use mark_play::Replay;
use notation::ByteOut;
use row_search::Maker;
use script_read::{Scripts, event_count};
use script_search::try_patterns;
use std::alloc::Global;
use std::marker::Model;

/// Whether an output is one of given scripts.
#[derive(Clone, Copy, Debug, PartialEq, Eq)]
pub enum Verdict {
    /// It is the output of a legal journal that plays the scripts to their ends.
    Yes,
    /// It has no line `journal`.
    NoJournal,
    /// This line of its journal, counted from 0, is no event that can come next; or the journal
    /// ends there, before all workers have ended.
    Event(u32),
    /// It first differs at this place from the output of its own journal. If one of them is
    /// shorter, its end is such a place.
    Byte(u64),
}

// The verdict of a comparison.
fn compared(output: &[u8], texts: &[ByteOut], part: usize) -> Verdict
    requires { part ≤ length output.now }
    ensures { result ≡ byte_verdict (first_difference output.now
        (worker_texts 0 texts.now ++ drop part output.now)) }
{
    match difference(output, texts, part) {
        None => Verdict::Yes,
        Some(place) => Verdict::Byte(place as u64),
    }
}

// Judges an output whose journal part begins at `part`.
fn judge<M: Maker>(
    alloc: Global,
    maker: &M,
    conf: &Conf,
    clock: Clock,
    scripts: &Scripts,
    output: &[u8],
    part: usize,
) -> Result<Verdict, VerifyFault>
    requires good { IsGood conf.now }
    requires few { all_events conf.now.slots scripts.now ≤ most_events }
    requires within { part ≤ length output.now }
    requires part { journal_part output.now ≡ Some (drop part output.now) }
    ensures verdict { IfOk result (λ v.
        v ≡ verdict_of conf.now (all_timed clock scripts.now) output.now) }
    ensures pattern { IfErr result (λ fault. fault ≡ Pattern
        → SomeRefusable (M.may_refuse maker.now) scripts.now) }
{
    let Some(events) = event_count(conf.slots, scripts) else {
        unreachable!();
    };
    let mut replay = Replay::new(alloc, conf, events)?;
    let mut seats = seats_for(alloc, scripts)?;
    let mut played = GameSoFar::start(&Unplayed {
        conf,
        clock: &clock,
        scripts,
    });
    let mut at = part;
    let mut k = 0u32;
    'lines: while at < output.len() {
        let end = line_end(output, at);
        let Some(mark) = read_mark(&output[at..end]) else {
            return Ok(Verdict::Event(k));
        };
        // No more events can come: not even one can be played.
        if k == events {
            return Ok(Verdict::Event(k));
        }
        let Some(next) = play_mark(
            alloc,
            maker,
            conf,
            clock,
            scripts,
            &mut replay,
            &mut seats,
            &played,
            mark,
        )?
        else {
            return Ok(Verdict::Event(k));
        };
        played = next;
        at = end;
        k += 1;
    }
    if !all_done(scripts, &seats) {
        return Ok(Verdict::Event(k));
    }
    let texts = into_texts(alloc, seats)?;
    Ok(compared(output, texts.as_slice(), part - 8))
}

/// Whether an output is one of these scripts, for a cache of this shape and this clock. It is read
/// once. Its journal is played by one thread, and its events are no more than those of the scripts.
///
/// Each pattern is compiled before the output is read, so there is a verdict only if each of them
/// is valid. Returns `Pattern` only if a call of the scripts has one that may be refused.
pub fn verify<M: Maker>(
    alloc: Global,
    maker: &M,
    conf: &Conf,
    clock: Clock,
    scripts: &Scripts,
    output: &[u8],
) -> Result<Verdict, VerifyFault>
    requires good { IsGood conf.now }
    requires few { all_events conf.now.slots scripts.now ≤ most_events }
    ensures verdict { IfOk result (λ v.
        v ≡ verdict_of conf.now (all_timed clock scripts.now) output.now) }
    ensures readable { OnOk result (AreReadable scripts.now) }
    ensures pattern { IfErr result (λ fault. fault ≡ Pattern
        → SomeRefusable (M.may_refuse maker.now) scripts.now) }
{
    try_patterns(alloc, maker, scripts)?;
    let Some(part) = journal_at(output) else {
        return Ok(Verdict::NoJournal);
    };
    judge(alloc, maker, conf, clock, scripts, output, part)
}
