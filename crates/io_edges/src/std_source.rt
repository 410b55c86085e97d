//! A source over a reader of the runtime.

ghost use Rattle.std.specs.Prelude.{◌≡◌, ◌≤◌, ◌<◌, length, take, None, Some, IfSome, MatchOption};
ghost use Rattle.std.specs.Io.KnownBytes.{Consumes, Keeps, IsAtEnd};
ghost use Rattle.io_edges.specs.Reading.{bytes_given, GivesWithin, EndsOnlyAtEnd, CountsReadFault};
ghost use Rattle.io_edges.specs.Reading.{faults_after_read};

use crate::{Got, Source};
use std::io::{ErrorKind, Read, Stdin};

/// A source over a reader, such as standard input. It does not report what is left, because no
/// contract can say what a stream holds. A read of 0 bytes is the end. Each error counts as a
/// fault.
#[derive(Drop)]
pub struct StdSource<R> {
    reader: R,
    failures: u64,
}

impl StdSource<Stdin> {
    /// Standard input.
    pub fn standard_input(rt: &HostRuntime) -> StdSource<Stdin>
        ensures { result.failures ≡ 0 }
    {
        StdSource::new(rt.stdin())
    }
}

impl<R: Read> StdSource<R> {
    /// A source over this reader, of which no read has failed yet.
    pub fn new(reader: R) -> StdSource<R>
        ensures reader { result.reader ≡ reader }
        ensures failures { result.failures ≡ 0 }
    {
        StdSource {
            reader,
            failures: 0,
        }
    }
}

impl<R: Read> Source for StdSource<R> {
    ghost left = { λ _. None };

    ghost faults = { λ s. s.failures };

    fn read(&mut self, into: &mut [u8]) -> Got
        requires { 0 < length into.old }
        ensures took { GivesWithin result (length into.new) }
        ensures faults { CountsReadFault result self.old.failures self.new.failures }

        // If a reader reports its bytes, what is returned is what comes next, and the end is its
        // end.
        ensures given { Consumes (R.remaining self.old.reader) (R.remaining self.new.reader)
            (bytes_given result into.new) }
        ensures end { EndsOnlyAtEnd result (R.remaining self.new.reader) }
        ensures failures { self.new.failures ≡ faults_after_read result self.old.failures }
    {
        match read_retrying(&mut self.reader, into) {
            Some(0) => Got::End,
            Some(count) => Got::Took(count),
            None => {
                self.failures = self.failures.saturating_add(1);
                Got::Failed
            }
        }
    }
}

// One read, repeated if a signal interrupted it. `None` is an error.
fn read_retrying<R: Read>(reader: &mut R, into: &mut [u8]) -> Option<usize>
    ensures bound { IfSome result (λ count. count ≤ length into.new) }
    ensures given { MatchOption result (Keeps (R.remaining reader.old) (R.remaining reader.new))
        (λ count.
        Consumes (R.remaining reader.old) (R.remaining reader.new) (take count into.new)) }
    ensures end { result ≡ Some 0 → 0 < length into.new → IsAtEnd (R.remaining reader.new) }
{
    'tries: for _ in 0..u64::MAX {
        match reader.read(into) {
            Ok(count) => return Some(count),
            Err(e) if e.kind() == ErrorKind::Interrupted => {}
            Err(_) => return None,
        }
    }
    None
}
