//! One run of the program, from its arguments to its status.

ghost use Rattle.std.specs.Prelude.{◌≡◌, ◌≢◌, ◌+◌, ◌<◌, ◌≤◌, length, None, IfSome};
ghost use Rattle.io_edges.specs.Faults.{Rose};
ghost use Rattle.io_edges.specs.Reading.{HasTaken, HasTakenWithin};
ghost use Rattle.apcu_model.specs.declared.limits.TheConstants.{LONGEST_INPUT};
ghost use Rattle.apcu_model.specs.Conf.{IsGood};
ghost use Rattle.conf_read.specs.Options.{settings_of};
ghost use Rattle.conf_read.specs.Tasks.{SuitsTask};
ghost use Rattle.apcu_play.specs.Ended.{sourced, sunk, IsEnding, RunHasEnded};
ghost use Rattle.apcu_play.specs.Message.{message_of};
ghost use Rattle.apcu_play.specs.Tasks.{IsRefused, IsUnloaded, IsCrowdedTask};
ghost use Rattle.apcu_play.specs.Tasks.{IsUnsearchable, LeavesInput};
ghost use Rattle.apcu_play.specs.Run.{Replays, ReplaysPart, TellsMessage, TellsRefusal};
ghost use Rattle.apcu_play.specs.Run.{TellsUnloaded, IsUnlessMemory, Completes};

use crate::answering::answer;
use crate::ending::{Ending, tell_ending};
use crate::printing::print;
use crate::status::Status;
use conf_read::{ConfFault, Settings, read_settings};
use io_edges::{Gate, Sink, Source};
use preload_set::readings_are_bundles;
use row_search::Maker;
use script_read::readings_are_scripts;
use std::alloc::Global;
use std::sync::Wait;
use std::thread::Threads;

// Prints on `out` what these settings ask for, or a message why not.
fn outcome_on<R: Threads + Wait + Sync, S: Source, K: Sink, M: Maker + Sync, G: Gate + Sync>(
    rt: &R,
    alloc: Global,
    settings: &Settings,
    input: &mut S,
    out: &mut K,
    maker: &M,
    gate: &G,
) -> Ending
    requires good { IsGood settings.now.conf }
    requires suits { SuitsTask settings.now.conf settings.now.task }
    ensures ending { IsEnding (M.may_refuse maker.now) settings.now
        (sourced (S.left input.old) (S.left input.new) (S.faults input.old) (S.faults input.new))
        (sunk (K.held out.old) (K.held out.new) (K.faults out.old) (K.faults out.new))
        result.status result.place result.reason }
    ensures within { result.status ≢ Status.TooLong
        → HasTakenWithin (S.left input.old) (S.left input.new) LONGEST_INPUT }
    ensures unread { LeavesInput settings.now.task result.status
        (S.left input.old) (S.left input.new) (S.faults input.old) (S.faults input.new) }
{
    match answer(rt, alloc, settings, input, maker, gate) {
        Ok(printed) => {
            if print(out, &printed) {
                Ending::of(printed.ends)
            } else {
                Ending::of(Status::WriteFault)
            }
        }
        Err(ending) => ending,
    }
}

// Prints on `out` what the words ask for, or a message why not.
fn outcome<R: Threads + Wait + Sync, S: Source, K: Sink, M: Maker + Sync, G: Gate + Sync>(
    rt: &R,
    alloc: Global,
    words: &[String],
    input: &mut S,
    out: &mut K,
    maker: &M,
    gate: &G,
) -> Ending
    ensures { RunHasEnded (M.may_refuse maker.now) (settings_of words.now)
        (sourced (S.left input.old) (S.left input.new) (S.faults input.old) (S.faults input.new))
        (sunk (K.held out.old) (K.held out.new) (K.faults out.old) (K.faults out.new)) result }
{
    match read_settings(alloc, words) {
        Ok(settings) => outcome_on(rt, alloc, &settings, input, out, maker, gate),
        Err(ConfFault::Usage) => Ending::of(Status::Usage),
        Err(ConfFault::Memory) => Ending::of(Status::NoMemory),
    }
}

/// Plays the scripts of `input`, each worker on a thread of its own, and prints on `out` what each
/// worker's calls return and the journal: the order in which the calls took effect. If it fails, it
/// prints a message of one line on `err`. With the option `--preload`, a bundle in front of the
/// scripts is loaded before any of them begins, by an additional last worker; with `--map 1` the
/// cache's map follows the journal. With `--generate` it plays scripts that are made from a number,
/// leaves `input` unread, and prints their summary. With `--verify` it plays nothing: it prints the
/// verdict on an output that follows its scripts.
///
/// It never frees the memory of its scripts: it is for a program that ends with it.
///
/// `words` are the program's arguments with its name first, options as `conf_read::read_settings`
/// reads them. A script's calls are those of PHP's APCu functions, one on a line, with their
/// arguments in PHP's serialize notation. `maker` compiles their patterns; `gate` is called at each
/// call, for each value that is copied and at each step of an iterator.
///
/// Whatever the scripts and however the workers meet, each reply printed is the one that a
/// single-threaded cache gives at that call's place in the printed journal (`replayed`). Every
/// other status has its cause in a clause of its own, and leaves `out` as it was, except `Differs`,
/// which prints the verdict, and `WriteFault`, which leaves the first part of what was to be
/// printed.
pub fn run<R: Threads + Wait + Sync, S: Source, K: Sink, E: Sink, M: Maker + Sync, G: Gate + Sync>(
    rt: &R,
    alloc: Global,
    words: &[String],
    input: &mut S,
    out: &mut K,
    err: &mut E,
    maker: &M,
    gate: &G,
) -> Status
    // What is printed is the output of a journal that is legal and complete for the scripts of the
    // whole input, on the cache and by the clock that the words ask for; of a generated run it is
    // the summary of such a journal for the generated scripts; and of a correct output, `yes`.
    ensures replayed { IfSome (settings_of words.now) (λ s. result ≡ Status.Done
        → Replays s Status.Done
        (S.left input.old) (S.left input.new) (K.held out.old) (K.held out.new)) }
    // For an output that is none of these scripts, it is the first difference.
    ensures differs { IfSome (settings_of words.now) (λ s. result ≡ Status.Differs
        → Replays s Status.Differs
        (S.left input.old) (S.left input.new) (K.held out.old) (K.held out.new)) }

    // Each other status, and when it is returned.
    ensures usage { result ≡ Status.Usage → settings_of words.now ≡ None }
    ensures faulty_words { settings_of words.now ≡ None → IsUnlessMemory Status.Usage result }
    ensures script { IfSome (settings_of words.now) (λ s. result ≡ Status.Script
        → IsRefused s.task (S.left input.old) (S.left input.new)) }
    ensures bundle { IfSome (settings_of words.now) (λ s. result ≡ Status.Bundle
        → IsUnloaded s.task (S.left input.old) (S.left input.new)) }
    ensures too_many { IfSome (settings_of words.now) (λ s. result ≡ Status.TooMany
        → IsCrowdedTask s.conf s.task (S.left input.old) (S.left input.new)) }
    ensures pattern { IfSome (settings_of words.now) (λ s. result ≡ Status.Pattern
        → IsUnsearchable (M.may_refuse maker.now) s.conf s.task
        (S.left input.old) (S.left input.new)) }
    ensures too_long { result ≡ Status.TooLong
        → HasTaken (S.left input.old) (S.left input.new) (LONGEST_INPUT + 1) }
    ensures longer { result ≡ Status.TooLong
        → IfSome (S.left input.old) (λ left. LONGEST_INPUT < length left) }
    ensures within { result ≢ Status.TooLong
        → HasTakenWithin (S.left input.old) (S.left input.new) LONGEST_INPUT }
    ensures read_fault { result ≡ Status.ReadFault
        → Rose (S.faults input.old) (S.faults input.new) }
    // A generated run leaves the input as it was, whatever it holds.
    ensures unread { IfSome (settings_of words.now) (λ s. LeavesInput s.task result
        (S.left input.old) (S.left input.new) (S.faults input.old) (S.faults input.new)) }
    ensures write_fault { result ≡ Status.WriteFault → Rose (K.faults out.old) (K.faults out.new) }
    ensures complete { IfSome (settings_of words.now) (λ s.
        Completes (M.may_refuse maker.now) s result (S.left input.old)
        (S.faults input.old) (S.faults input.new) (K.faults out.old) (K.faults out.new)) }

    // What was written to the sinks.
    ensures cut { IfSome (settings_of words.now) (λ s. result ≡ Status.WriteFault
        → ReplaysPart s (S.left input.old) (S.left input.new)
        (K.held out.old) (K.held out.new)) }
    ensures unchanged { result ≢ Status.Done → result ≢ Status.Differs
        → result ≢ Status.WriteFault
        → (K.held out.new ≡ K.held out.old) × (K.faults out.new ≡ K.faults out.old) }
    ensures silent { result ≡ Status.Done
        → (E.held err.new ≡ E.held err.old) × (E.faults err.new ≡ E.faults err.old) }
    ensures message { result ≢ Status.Done → result ≢ Status.Script → result ≢ Status.Bundle
        → TellsMessage (message_of result)
        (E.held err.old) (E.held err.new) (E.faults err.old) (E.faults err.new) }
    ensures script_message { IfSome (settings_of words.now) (λ s. result ≡ Status.Script
        → TellsRefusal s.task (S.left input.old) (S.left input.new)
        (E.held err.old) (E.held err.new) (E.faults err.old) (E.faults err.new)) }
    ensures bundle_message { IfSome (settings_of words.now) (λ s. result ≡ Status.Bundle
        → TellsUnloaded s.task (S.left input.old) (S.left input.new)
        (E.held err.old) (E.held err.new) (E.faults err.old) (E.faults err.new)) }
{
    readings_are_scripts();
    readings_are_bundles();
    let ending = outcome(rt, alloc, words, input, out, maker, gate);
    tell_ending(err, ending);
    ending.status
}
