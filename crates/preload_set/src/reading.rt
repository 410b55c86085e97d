//! The bundle that bytes spell, or their first fault.

ghost use Rattle.std.specs.Prelude.{◌≡◌, ◌≤◌, ◌<◌, List, length, IfOk, MatchResult};
ghost use Rattle.apcu_model.specs.declared.limits.TheConstants.{LONGEST_INPUT};
ghost use Rattle.preload_set.specs.Bundle.{Record, AreRecords};
ghost use Rattle.preload_set.specs.Gives.{ReadsRecords, ReadsBundle};

use crate::bundle::Bundle;
use crate::laws::readings_are_bundles;
use crate::records::record;
use apcu_model::Pairs;
use notation::{Cursor, ReadFault};
use script_read::ScriptFault;
use std::alloc::Global;

// All of the bytes, record by record.
fn records(alloc: Global, bytes: &[u8]) -> Result<Pairs, ReadFault>
    requires { length bytes.now ≤ LONGEST_INPUT }
    ensures { ReadsRecords bytes.now result }
{
    let mut from = Cursor::new(bytes);
    let mut records = Pairs::new(alloc);
    'reading: while from.peek().is_some() {
        let (key, value) = record(alloc, &mut from)?;
        if records.push(key, value).is_err() {
            return Err(ReadFault::Memory);
        }
    }
    Ok(records)
}

/// Reads the bundle that all of the bytes are: records one after the other, each a key, a space, a
/// value and a line feed. The key is a string, and both are in PHP's serialize notation. Otherwise
/// the error is the first fault from the left, with the place of its byte. Memory is allocated only
/// for bytes that are there.
pub fn read_bundle(alloc: Global, bytes: &[u8]) -> Result<Bundle, ScriptFault>
    requires { length bytes.now ≤ LONGEST_INPUT }
    // What is read is written there.
    ensures found { IfOk result (AreRecords bytes.now) }
    // What is written there is read, unless memory runs out, and nothing else is written there.
    ensures only { (records : List Record) → AreRecords bytes.now records
        → MatchResult result (λ read. read ≡ records) (λ e. e ≡ ScriptFault.Memory) }
    // It is what reading from left to right gives: the records, or the first fault.
    ensures read { ReadsBundle bytes.now result }
{
    readings_are_bundles();
    match records(alloc, bytes) {
        Ok(records) => Ok(Bundle { records }),
        Err(ReadFault::Bad { place, reason }) => Err(ScriptFault::Bad { place, reason }),
        Err(ReadFault::Memory) => Err(ScriptFault::Memory),
    }
}
