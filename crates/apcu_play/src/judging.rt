//! Judging an output.

ghost use Rattle.std.specs.Prelude.{◌≡◌, ◌≢◌, ◌<◌, ◌≤◌, ◌++◌, codes, IfOk, IfErr, OnOk};
ghost use Rattle.std.specs.Fmt.{decimal};
ghost use Rattle.apcu_model.specs.Conf.{IsGood};
ghost use Rattle.script_read.specs.Budgets.{all_events, most_events};
ghost use Rattle.script_read.specs.Clock.{all_timed};
ghost use Rattle.script_read.specs.Patterns.{SomeRefusable};
ghost use Rattle.crew_play.specs.declared.play.CrewFault.TheVariants.{TooMany, Pattern};
ghost use Rattle.reply_text.specs.Output.{worker_texts};
ghost use Rattle.run_verify.specs.Verdicts.{verdict_of};
ghost use Rattle.script_search.specs.ReadPatterns.{AreReadable};
ghost use Rattle.apcu_play.specs.Printing.{PrintsVerdict};
ghost use Rattle.apcu_play.specs.Tasks.{ending_for, verdict_text};

use crate::play::Printed;
use crate::status::Status;
use apcu_model::{Clock, Conf};
use crew_play::CrewFault;
use itoa::Buffer;
use notation::ByteOut;
use row_search::Maker;
use run_verify::{Verdict, VerifyFault, verify};
use script_read::{Scripts, event_count};
use std::alloc::{AllocError, Global};

// A line of these words and a number.
fn write_place(out: &mut ByteOut, words: &[u8], place: u64) -> Result<(), AllocError>
    ensures { OnOk result (out.new ≡ out.old ++ (words.now ++ (decimal place ++ codes "\n"))) }
{
    let mut digits = Buffer::new();
    out.push(words)?;
    out.push(digits.format(place).as_bytes())?;
    out.push(b"\n")
}

// Writes the line of a verdict.
fn write_verdict(out: &mut ByteOut, verdict: Verdict) -> Result<(), AllocError>
    ensures { OnOk result (out.new ≡ out.old ++ verdict_text verdict) }
{
    match verdict {
        Verdict::Yes => out.push(b"yes\n"),
        Verdict::NoJournal => out.push(b"no: journal\n"),
        Verdict::Event(k) => write_place(out, b"no: event ", u64::from(k)),
        Verdict::Byte(place) => write_place(out, b"no: byte ", place),
    }
}

// The status of a run that has written all of a verdict.
fn ending_for(verdict: Verdict) -> Status
    ensures { result ≡ ending_for verdict }
{
    match verdict {
        Verdict::Yes => Status::Done,
        Verdict::NoJournal | Verdict::Event(_) | Verdict::Byte(_) => Status::Differs,
    }
}

// The verdict on an output, for scripts of few enough events.
fn verdict_on<M: Maker>(
    alloc: Global,
    conf: &Conf,
    clock: Clock,
    scripts: &Scripts,
    output: &[u8],
    maker: &M,
) -> Result<Verdict, CrewFault>
    requires good { IsGood conf.now }
    requires few { all_events conf.now.slots scripts.now ≤ most_events }
    ensures verdict { IfOk result (λ v.
        v ≡ verdict_of conf.now (all_timed clock scripts.now) output.now) }
    ensures readable { OnOk result (AreReadable scripts.now) }
    ensures pattern { IfErr result (λ e. e ≡ Pattern
        → SomeRefusable (M.may_refuse maker.now) scripts.now) }
    ensures others { IfErr result (λ e. e ≢ TooMany) }
{
    match verify(alloc, maker, conf, clock, scripts, output) {
        Ok(verdict) => Ok(verdict),
        Err(VerifyFault::Pattern) => Err(CrewFault::Pattern),
        Err(VerifyFault::Memory) => Err(CrewFault::Memory),
    }
}

/// Judges an output of the scripts under a clock, and gathers the line of the verdict. Nothing is
/// judged if the calls may make more than 4,194,304 events, each worker's end included, or if one
/// of their patterns is invalid or is refused.
pub(crate) fn judge<M: Maker>(
    alloc: Global,
    conf: &Conf,
    scripts: &Scripts,
    output: &[u8],
    maker: &M,
    clock: Clock,
) -> Result<Printed, CrewFault>
    requires good { IsGood conf.now }
    ensures verdict { IfOk result (λ p. PrintsVerdict conf.now clock scripts.now
        output.now p.ends (worker_texts 0 p.texts.items ++ p.rest)) }
    ensures few { OnOk result (all_events conf.now.slots scripts.now ≤ most_events) }
    ensures many { IfErr result (λ e. e ≡ TooMany
        → most_events < all_events conf.now.slots scripts.now) }
    ensures pattern { IfErr result (λ e. e ≡ Pattern
        → (all_events conf.now.slots scripts.now ≤ most_events)
        × SomeRefusable (M.may_refuse maker.now) scripts.now) }
{
    if event_count(conf.slots, scripts).is_none() {
        return Err(CrewFault::TooMany);
    }
    let verdict = verdict_on(alloc, conf, clock, scripts, output, maker)?;
    let mut rest = ByteOut::new(alloc);
    write_verdict(&mut rest, verdict)?;
    Ok(Printed {
        texts: Vec::new(alloc),
        rest,
        ends: ending_for(verdict),
    })
}
