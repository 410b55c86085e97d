//! Reading an input, and what it spells.

ghost use Rattle.std.specs.Prelude.{◌≡◌, ◌≤◌, Bool, length, drop, IfOk, IfErr, Some};
ghost use Rattle.apcu_model.specs.declared.conf.Conf.{Conf};
ghost use Rattle.apcu_model.specs.declared.limits.TheConstants.{LONGEST_INPUT, MOST_WORKERS};
ghost use Rattle.conf_read.specs.declared.task.Task.{Task};
ghost use Rattle.conf_read.specs.declared.task.Task.TheVariants.{Play, Verify};
ghost use Rattle.apcu_play.specs.Causes.{IsCause, IsCauseIn, refuses_none};
ghost use Rattle.apcu_play.specs.Inputs.{AreCrew, AreInFront, AreLoaded};
ghost use Rattle.apcu_play.specs.Tasks.{WasRead};

use crate::ending::{Ending, ending_by};
use crate::status::Status;
use apcu_model::{LONGEST_INPUT, MOST_WORKERS};
use io_edges::{ReadError, Source, read_all};
use notation::Reason;
use preload_set::{loader, read_front, readings_are_bundles};
use script_read::{ScriptFault, Scripts, read_scripts};
use std::alloc::Global;

/// The whole input.
pub(crate) fn input_of<S: Source>(alloc: Global, input: &mut S) -> Result<Vec<u8>, Ending>
    ensures read { IfOk result (λ bytes.
        WasRead (S.left input.old) (S.left input.new) bytes.items) }
    ensures cause { (conf : Conf) (task : Task) → IfErr result (λ e.
        IsCause refuses_none conf task (S.left input.old) (S.left input.new)
        (S.faults input.old) (S.faults input.new) e.status e.place e.reason) }
{
    match read_all(alloc, input, LONGEST_INPUT as usize) {
        Ok(bytes) => Ok(bytes),
        Err(ReadError::Memory) => Err(Ending::of(Status::NoMemory)),
        Err(ReadError::Fault) => Err(Ending::of(Status::ReadFault)),
        Err(ReadError::TooLong) => Err(Ending::of(Status::TooLong)),
    }
}

// The crew of scripts after a bundle of `len` bytes: these, and the bundle's loader.
fn loaded_crew(alloc: Global, bytes: &[u8], len: u64) -> Result<Scripts, Ending>
    requires short { length bytes.now ≤ LONGEST_INPUT }
    ensures crew { IfOk result (λ crew. AreLoaded len bytes.now crew) }
    ensures most { IfOk result (λ crew. length crew ≤ MOST_WORKERS) }
    ensures cause { (conf : Conf) (map : Bool)
        → IfErr result (IsCauseIn refuses_none conf (Play (Some len) map) bytes.now) }
{
    readings_are_bundles();
    let (bundle, behind) = match read_front(alloc, bytes, len) {
        Ok(front) => front,
        Err(fault) => return Err(ending_by(Status::Bundle, 0, &fault)),
    };
    let mut scripts = match read_scripts(alloc, behind) {
        Ok(scripts) => scripts,
        Err(fault) => return Err(ending_by(Status::Script, len, &fault)),
    };
    if scripts.len() >= MOST_WORKERS {
        return Err(Ending::of(Status::TooMany));
    }
    let Ok(loader) = loader(alloc, &bundle) else {
        return Err(Ending::of(Status::NoMemory));
    };
    match scripts.push(loader) {
        Ok(()) => Ok(scripts),
        Err(_) => Err(Ending::of(Status::NoMemory)),
    }
}

/// The crew of a play: the scripts that the input spells, and after them the loader of a bundle of
/// `preload` bytes, if there is one in front of them.
pub(crate) fn crew_of(alloc: Global, bytes: &[u8], preload: Option<u64>) -> Result<Scripts, Ending>
    requires short { length bytes.now ≤ LONGEST_INPUT }
    ensures crew { IfOk result (λ crew. AreCrew preload bytes.now crew) }
    ensures most { IfOk result (λ crew. length crew ≤ MOST_WORKERS) }
    ensures cause { (conf : Conf) (map : Bool)
        → IfErr result (IsCauseIn refuses_none conf (Play preload map) bytes.now) }
{
    match preload {
        Some(len) => loaded_crew(alloc, bytes, len),
        None => match read_scripts(alloc, bytes) {
            Ok(scripts) => Ok(scripts),
            Err(fault) => Err(ending_by(Status::Script, 0, &fault)),
        },
    }
}

// The ending of a run whose input is shorter than its scripts should be.
fn cut_short(bytes: &[u8]) -> Ending
    ensures status { result.status ≡ Status.Script }
    ensures place { result.place ≡ length bytes.now }
    ensures reason { result.reason ≡ Reason.End }
{
    Ending {
        status: Status::Script,
        place: bytes.len() as u64,
        reason: Reason::End,
    }
}

/// The scripts that the first `len` bytes of an input spell, and the bytes after them.
pub(crate) fn scripts_in_front(
    alloc: Global,
    bytes: &[u8],
    len: u64,
) -> Result<(Scripts, &[u8]), Ending>
    requires short { length bytes.now ≤ LONGEST_INPUT }
    ensures scripts { IfOk result (λ x. AreInFront len bytes.now x.0) }
    ensures behind { IfOk result (λ x. x.1.now ≡ drop len bytes.now) }
    ensures cause { (conf : Conf)
        → IfErr result (IsCauseIn refuses_none conf (Verify len) bytes.now) }
{
    if (bytes.len() as u64) < len {
        return Err(cut_short(bytes));
    }
    let (front, behind) = bytes.split_at(len as usize);
    match read_scripts(alloc, front) {
        Ok(scripts) => Ok((scripts, behind)),
        Err(fault) => Err(ending_by(Status::Script, 0, &fault)),
    }
}
