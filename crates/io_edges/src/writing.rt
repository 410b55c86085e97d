//! Writing all of some bytes to a sink.

ghost use Rattle.std.specs.Prelude.{◌≡◌, ◌<◌, ◌≤◌, ℕ, length, take, OnOk, OnErr};
ghost use Rattle.std.specs.Io.KnownBytes.{append_known};
ghost use Rattle.io_edges.specs.Faults.{Rose};

use crate::{Put, Sink};
use thiserror::Error;

/// A write to a sink failed.
#[derive(Debug, Drop, Error)]
#[error("write fault")]
pub struct WriteFault;

/// Writes all of these bytes, in as many writes as the sink wants. It allocates no memory.
pub fn write_all<K: Sink>(out: &mut K, bytes: &[u8]) -> Result<(), WriteFault>
    ensures all { OnOk result (K.held out.new ≡ append_known (K.held out.old) bytes.now) }

    // A fault is a fault of the sink in this call, and some of the bytes are not written.
    ensures part { OnErr result ((count : ℕ) × (count < length bytes.now)
        × (K.held out.new ≡ append_known (K.held out.old) (take count bytes.now))) }
    ensures fault { OnErr result (Rose (K.faults out.old) (K.faults out.new)) }
    ensures calm { OnOk result (K.faults out.new ≡ K.faults out.old) }
    ensures never_falls { K.faults out.old ≤ K.faults out.new }
{
    let mut done = 0;
    'turns: while done < bytes.len() {
        match out.write(&bytes[done..]) {
            Put::Took(count) => done += count,
            Put::Failed => return Err(WriteFault),
        }
    }
    Ok(())
}
