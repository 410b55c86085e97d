//! The bundle at the beginning of an input.

ghost use Rattle.std.specs.Prelude.{◌≡◌, ◌<◌, ◌≤◌, List, take, drop, length, IfOk, MatchResult};
ghost use Rattle.apcu_model.specs.declared.limits.TheConstants.{LONGEST_INPUT};
ghost use Rattle.preload_set.specs.Bundle.{Record, AreRecords};
ghost use Rattle.preload_set.specs.Gives.{ReadsFront};

use crate::bundle::Bundle;
use crate::reading::read_bundle;
use notation::Reason;
use script_read::ScriptFault;
use std::alloc::Global;

/// Reads the bundle that the first `len` bytes of an input are, and returns it with the bytes after
/// them. An input that has fewer bytes is at fault at its end, whatever its bytes are.
pub fn read_front(alloc: Global, input: &[u8], len: u64) -> Result<(Bundle, &[u8]), ScriptFault>
    requires { length input.now ≤ LONGEST_INPUT }
    // What is read is written in front.
    ensures found { IfOk result (λ x. AreRecords (take len input.now) x.0) }
    // What is written in front is read, unless memory runs out.
    ensures only { (records : List Record) → len ≤ length input.now
        → AreRecords (take len input.now) records
        → MatchResult result (λ x. x.0 ≡ records) (λ e. e ≡ ScriptFault.Memory) }
    // It is what reading from left to right gives; a fault has its place among all bytes.
    ensures read { ReadsFront (λ x. (x.0, x.1.now)) len input.now result }
{
    if (input.len() as u64) < len {
        return Err(ScriptFault::Bad {
            place: input.len() as u64,
            reason: Reason::End,
        });
    }
    let (front, behind) = input.split_at(len as usize);
    let bundle = read_bundle(alloc, front)?;
    Ok((bundle, behind))
}
