//! The result of a run, gathered before anything is printed.

ghost use Rattle.std.specs.Prelude.{◌≡◌, ◌⊎◌, ◌<◌, ◌≤◌, ◌++◌, length, IfOk, IfErr};
ghost use Rattle.apcu_model.specs.declared.limits.TheConstants.{LONGEST_INPUT};
ghost use Rattle.apcu_model.specs.Conf.{IsGood};
ghost use Rattle.conf_read.specs.declared.task.Task.TheVariants.{Play, Verify};
ghost use Rattle.conf_read.specs.Tasks.{SuitsTask};
ghost use Rattle.reply_text.specs.Output.{worker_texts};
ghost use Rattle.script_read.specs.Budgets.{most_events};
ghost use Rattle.apcu_play.specs.Causes.{AnswersBytes, IsCause, IsCauseIn, status_for};
ghost use Rattle.apcu_play.specs.Tasks.{AnswersSeed, AnswersTask};
ghost use Rattle.apcu_play.specs.Tasks.{LeavesInput, generated_events};

use crate::ending::Ending;
use crate::judging::judge;
use crate::play::{Printed, play, watch};
use crate::reading::{crew_of, input_of, scripts_in_front};
use crate::status::Status;
use apcu_model::Conf;
use conf_read::{Settings, Task};
use crew_play::CrewFault;
use io_edges::{Gate, Source};
use row_search::Maker;
use std::alloc::Global;
use std::mem::forget;
use std::sync::Wait;
use std::thread::Threads;

// The status of a run whose scripts were not all played, or judged by.
fn status_of(fault: CrewFault) -> Status
    ensures { result ≡ status_for fault }
{
    match fault {
        CrewFault::Memory => Status::NoMemory,
        CrewFault::TooMany => Status::TooMany,
        CrewFault::Pattern => Status::Pattern,
    }
}

// The output for the scripts of an input. The input's memory is freed before they are played, so
// that the replies may take it.
fn answer_input<R: Threads + Wait + Sync, M: Maker + Sync, G: Gate + Sync>(
    rt: &R,
    alloc: Global,
    settings: &Settings,
    bytes: Vec<u8>,
    preload: Option<u64>,
    map: bool,
    maker: &M,
    gate: &G,
) -> Result<Printed, Ending>
    requires good { IsGood settings.now.conf }
    requires short { length bytes.items ≤ LONGEST_INPUT }
    ensures answer { IfOk result (λ p. AnswersBytes settings.now (Play preload map) bytes.items
        p.ends (worker_texts 0 p.texts.items ++ p.rest)) }
    ensures cause { IfErr result (IsCauseIn (M.may_refuse maker.now) settings.now.conf
        (Play preload map) bytes.items) }
{
    let crew = crew_of(alloc, &bytes, preload)?;
    drop(bytes);
    let played = play(rt, alloc, settings, &crew, preload, map, maker, gate);
    // The program ends soon, and its memory is freed then.
    forget(crew);
    match played {
        Ok(printed) => Ok(printed),
        Err(fault) => Err(Ending::of(status_of(fault))),
    }
}

// The output for the verdict on an output. The first `len` bytes of the input are its scripts.
fn answer_output<M: Maker>(
    alloc: Global,
    settings: &Settings,
    bytes: &[u8],
    len: u64,
    maker: &M,
) -> Result<Printed, Ending>
    requires good { IsGood settings.now.conf }
    requires short { length bytes.now ≤ LONGEST_INPUT }
    ensures answer { IfOk result (λ p. AnswersBytes settings.now (Verify len) bytes.now
        p.ends (worker_texts 0 p.texts.items ++ p.rest)) }
    ensures cause { IfErr result (IsCauseIn (M.may_refuse maker.now) settings.now.conf
        (Verify len) bytes.now) }
{
    let (scripts, output) = scripts_in_front(alloc, bytes, len)?;
    let judged = judge(
        alloc,
        &settings.conf,
        &scripts,
        output,
        maker,
        settings.clock,
    );
    forget(scripts);
    match judged {
        Ok(printed) => Ok(printed),
        Err(fault) => Err(Ending::of(status_of(fault))),
    }
}

// The output for generated scripts.
fn answer_seed<R: Threads + Wait + Sync, M: Maker + Sync, G: Gate + Sync>(
    rt: &R,
    alloc: Global,
    conf: &Conf,
    seed: u64,
    workers: u32,
    calls: u32,
    maker: &M,
    gate: &G,
) -> Result<Printed, Ending>
    requires good { IsGood conf.now }
    requires suits { SuitsTask conf.now (Task.Generate seed workers calls) }
    ensures answer { IfOk result (λ p. AnswersSeed conf.now seed workers calls
        (worker_texts 0 p.texts.items ++ p.rest)) }
    ensures ends { IfOk result (λ p. p.ends ≡ Status.Done) }
    ensures too_many { IfErr result (λ e. e.status ≡ Status.TooMany
        → most_events < generated_events workers calls) }
    ensures others { IfErr result (λ e. (e.status ≡ Status.TooMany)
        ⊎ (e.status ≡ Status.NoMemory)) }
{
    match watch(rt, alloc, conf, seed, workers, calls, maker, gate) {
        Ok(printed) => Ok(printed),
        Err(CrewFault::TooMany) => Err(Ending::of(Status::TooMany)),
        // Generated scripts have no pattern.
        Err(_) => Err(Ending::of(Status::NoMemory)),
    }
}

/// The output that the settings ask for; or why there is nothing to print.
pub(crate) fn answer<R: Threads + Wait + Sync, S: Source, M: Maker + Sync, G: Gate + Sync>(
    rt: &R,
    alloc: Global,
    settings: &Settings,
    input: &mut S,
    maker: &M,
    gate: &G,
) -> Result<Printed, Ending>
    requires good { IsGood settings.now.conf }
    requires suits { SuitsTask settings.now.conf settings.now.task }
    ensures answer { IfOk result (λ p. AnswersTask settings.now settings.now.task p.ends
        (S.left input.old) (S.left input.new) (worker_texts 0 p.texts.items ++ p.rest)) }
    ensures cause { IfErr result (λ e. IsCause (M.may_refuse maker.now) settings.now.conf
        settings.now.task (S.left input.old) (S.left input.new) (S.faults input.old)
        (S.faults input.new) e.status e.place e.reason) }
    ensures unread_ok { IfOk result (λ p. LeavesInput settings.now.task p.ends
        (S.left input.old) (S.left input.new) (S.faults input.old) (S.faults input.new)) }
    ensures unread { IfErr result (λ e. LeavesInput settings.now.task e.status
        (S.left input.old) (S.left input.new) (S.faults input.old) (S.faults input.new)) }
{
    match settings.task {
        Task::Play { preload, map } => {
            let bytes = input_of(alloc, input)?;
            answer_input(rt, alloc, settings, bytes, preload, map, maker, gate)
        }
        Task::Generate {
            seed,
            workers,
            calls,
        } => {
            let conf = &settings.conf;
            answer_seed(rt, alloc, conf, seed, workers, calls, maker, gate)
        }
        Task::Verify { scripts } => {
            let bytes = input_of(alloc, input)?;
            answer_output(alloc, settings, &bytes, scripts, maker)
        }
    }
}
