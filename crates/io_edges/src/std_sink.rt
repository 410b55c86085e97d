//! A sink over a writer of the runtime.

ghost use Rattle.std.specs.Prelude.{◌≡◌, ◌≤◌, ◌<◌, length, take, None, IfSome, MatchOption};
ghost use Rattle.std.specs.Io.KnownBytes.{Appends, Keeps};
ghost use Rattle.io_edges.specs.Writing.{bytes_taken, TakesWithin, CountsWriteFault};
ghost use Rattle.io_edges.specs.Writing.{faults_after_write};

use crate::{Put, Sink};
use std::io::{ErrorKind, Stderr, Stdout, Write};

/// A sink over a writer, such as standard output. It does not report what it holds, because no
/// contract can say what a stream received. Each error counts as a fault, and so does a write that
/// takes 0 bytes. It does not buffer, and does not flush a writer that does.
#[derive(Drop)]
pub struct StdSink<W> {
    writer: W,
    failures: u64,
}

impl StdSink<Stdout> {
    /// Standard output.
    pub fn standard_output(rt: &HostRuntime) -> StdSink<Stdout>
        ensures { result.failures ≡ 0 }
    {
        StdSink::new(rt.stdout())
    }
}

impl StdSink<Stderr> {
    /// Standard error.
    pub fn standard_error(rt: &HostRuntime) -> StdSink<Stderr>
        ensures { result.failures ≡ 0 }
    {
        StdSink::new(rt.stderr())
    }
}

impl<W: Write> StdSink<W> {
    /// A sink over this writer, of which no write has failed yet.
    pub fn new(writer: W) -> StdSink<W>
        ensures writer { result.writer ≡ writer }
        ensures failures { result.failures ≡ 0 }
    {
        StdSink {
            writer,
            failures: 0,
        }
    }
}

impl<W: Write> Sink for StdSink<W> {
    ghost held = { λ _. None };

    ghost faults = { λ s. s.failures };

    fn write(&mut self, from: &[u8]) -> Put
        requires { 0 < length from.now }
        ensures took { TakesWithin result (length from.now) }
        ensures faults { CountsWriteFault result self.old.failures self.new.failures }

        // If a writer reports its bytes, what is taken follows them.
        ensures taken { Appends (W.contents self.old.writer) (W.contents self.new.writer)
            (bytes_taken result from.now) }
        ensures failures { self.new.failures ≡ faults_after_write result self.old.failures }
    {
        match write_retrying(&mut self.writer, from) {
            Some(count) if count > 0 => Put::Took(count),
            _ => {
                self.failures = self.failures.saturating_add(1);
                Put::Failed
            }
        }
    }
}

// One write, repeated if a signal interrupted it. `None` is an error.
fn write_retrying<W: Write>(writer: &mut W, from: &[u8]) -> Option<usize>
    ensures bound { IfSome result (λ count. count ≤ length from.now) }
    ensures taken { MatchOption result (Keeps (W.contents writer.old) (W.contents writer.new))
        (λ count. Appends (W.contents writer.old) (W.contents writer.new) (take count from.now)) }
{
    'tries: for _ in 0..u64::MAX {
        match writer.write(from) {
            Ok(count) => return Some(count),
            Err(e) if e.kind() == ErrorKind::Interrupted => {}
            Err(_) => return None,
        }
    }
    None
}
