//! Writing the output to a sink.

ghost use Rattle.std.specs.Prelude.{◌++◌, codes};
ghost use Rattle.std.specs.Fmt.{decimal};
ghost use Rattle.script_read.specs.Grammar.{ends_line};
ghost use Rattle.reply_text.specs.Output.{worker_texts};
ghost use Rattle.apcu_play.specs.Run.{WasWritten};

use crate::play::Printed;
use io_edges::{Sink, write_all};
use itoa::Buffer;
use notation::ByteOut;

/// Prints all of it, and returns whether it was written. It takes no memory.
pub(crate) fn print<K: Sink>(out: &mut K, printed: &Printed) -> bool
    ensures { WasWritten result (worker_texts 0 printed.now.texts.items ++ printed.now.rest)
        (K.held out.old) (K.held out.new) (K.faults out.old) (K.faults out.new) }
{
    if !print_texts(out, &printed.texts) {
        return false;
    }
    write_text(out, printed.rest.as_slice())
}

// For each worker its number and its lines.
fn print_texts<K: Sink>(out: &mut K, texts: &[ByteOut]) -> bool
    ensures { WasWritten result (worker_texts 0 texts.now)
        (K.held out.old) (K.held out.new) (K.faults out.old) (K.faults out.new) }
{
    for worker in 0..texts.len() {
        if !print_worker(out, worker, texts[worker].as_slice()) {
            return false;
        }
    }
    true
}

// The line of a worker's number, and the worker's lines.
fn print_worker<K: Sink>(out: &mut K, worker: usize, text: &[u8]) -> bool
    ensures { WasWritten result (codes "worker " ++ decimal worker ++ ends_line ++ text.now)
        (K.held out.old) (K.held out.new) (K.faults out.old) (K.faults out.new) }
{
    if !write_text(out, b"worker ") {
        return false;
    }
    let mut digits = Buffer::new();
    if !write_text(out, digits.format(worker).as_bytes()) {
        return false;
    }
    if !write_text(out, b"\n") {
        return false;
    }
    write_text(out, text)
}

// Writes a text, and returns whether all of it was written. It takes no memory.
pub(crate) fn write_text<K: Sink>(out: &mut K, text: &[u8]) -> bool
    ensures { WasWritten result text.now
        (K.held out.old) (K.held out.new) (K.faults out.old) (K.faults out.new) }
{
    match write_all(out, text) {
        Ok(()) => true,
        Err(_) => false,
    }
}
