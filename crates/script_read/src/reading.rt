//! The scripts that bytes spell, or their first fault.

ghost use Rattle.std.specs.Prelude.{◌≡◌, ℕ, ◌≤◌, List, length, IfOk, MatchResult};
ghost use Rattle.apcu_model.specs.declared.limits.TheConstants.{LONGEST_INPUT};
ghost use Rattle.script_read.specs.declared.script.Step.{Step};
ghost use Rattle.script_read.specs.Grammar.{AreScripts};
ghost use Rattle.script_read.specs.Reading.{scripts_at};
ghost use Rattle.script_read.specs.Gives.{GivesItem, ReadsScripts};

use crate::effect::{Effect, Moments};
use crate::fault::{ScriptFault, Stop};
use crate::keyword::is_word;
use crate::laws::readings_are_scripts;
use crate::lines::{line, word_len, worker};
use crate::script::Scripts;
use notation::readings_stay_inside;
use std::alloc::Global;

// All of the bytes, line by line.
fn scripts(alloc: Global, bytes: &[u8]) -> Result<Scripts, Stop>
    requires { length bytes.now ≤ LONGEST_INPUT }
    ensures read { GivesItem (λ scripts. scripts) result (scripts_at bytes.now) }
{
    let mut scripts = Scripts::new(alloc);
    let mut moments = Moments { t: 0, start: 0 };
    let mut rest = bytes;
    while !rest.is_empty() {
        let (word, behind) = rest.split_at(word_len(rest));
        if is_word(word, b"worker") {
            rest = worker(scripts.len(), rest, behind)?;
            scripts.begin(alloc)?;
            moments = Moments { t: 0, start: 0 };
        } else {
            let (effect, after) = line(alloc, scripts.len(), word, rest, behind)?;
            rest = after;
            match effect {
                Effect::Sets(t) => moments.t = t,
                Effect::Begins(t) => moments = Moments { t, start: t },
                Effect::Calls(call) => scripts.add(moments.step(call))?,
            }
        }
    }
    Ok(scripts)
}

// The scripts, or the first fault.
fn read(alloc: Global, bytes: &[u8]) -> Result<Scripts, ScriptFault>
    requires { length bytes.now ≤ LONGEST_INPUT }
    ensures { ReadsScripts bytes.now result }
{
    readings_stay_inside();
    match scripts(alloc, bytes) {
        Ok(scripts) => Ok(scripts),
        Err(Stop::Memory) => Err(ScriptFault::Memory),
        Err(Stop::Fault(fault)) => Err(ScriptFault::Bad {
            place: (bytes.len() - fault.left) as u64,
            reason: fault.reason,
        }),
    }
}

/// Reads the scripts that all of the bytes spell, one for each worker: none if there are no bytes,
/// and at most `MOST_WORKERS`. Otherwise the error is the first fault from the left, with the place
/// of its byte.
pub fn read_scripts(alloc: Global, bytes: &[u8]) -> Result<Scripts, ScriptFault>
    requires { length bytes.now ≤ LONGEST_INPUT }
    // What is read is what the bytes spell.
    ensures found { IfOk result (AreScripts bytes.now) }
    // What the bytes spell is read, unless memory runs out, and they spell nothing else.
    ensures only { (scripts : List (List Step)) → AreScripts bytes.now scripts
        → MatchResult result (λ read. read ≡ scripts) (λ e. e ≡ ScriptFault.Memory) }
    // It is what reading from left to right gives: the scripts, or the first fault.
    ensures read { ReadsScripts bytes.now result }
{
    readings_are_scripts();
    read(alloc, bytes)
}
