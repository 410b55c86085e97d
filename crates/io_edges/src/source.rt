//! The sources of bytes.

ghost use Rattle.std.specs.Prelude.{◌≡◌, ℕ, ◌<◌, List, length, Option};
ghost use Rattle.std.specs.Io.KnownBytes.{prepend_known};
ghost use Rattle.io_edges.specs.Reading.{bytes_given, GivesWithin, EndsOnlyAtEnd, CountsReadFault};

/// The result of a read.
#[derive(Clone, Copy, Debug, PartialEq, Eq)]
pub enum Got {
    /// This many bytes were read.
    Took(usize),
    /// Nothing is left.
    End,
    /// The read failed, and returned nothing.
    Failed,
}

/// Returns bytes, in pieces of its own choice.
pub trait Source {
    /// The bytes that reads will return from here on, or `None` if the source does not report them.
    ghost left: { Self → Option (List ℕ) };

    /// How often a read has failed. The count stops at the maximum of a `u64`.
    ghost faults: { Self → ℕ };

    /// Reads the next bytes into the front of `into`. What the bytes after those become is not
    /// specified.
    fn read(&mut self, into: &mut [u8]) -> Got
        requires { 0 < length into.old }

        // At least one byte, and no more than there is room for.
        ensures took { GivesWithin result (length into.new) }

        // What is returned is what comes next, and it is not returned again.
        ensures bytes { left self.old
            ≡ prepend_known (bytes_given result into.new) (left self.new) }
        ensures end { EndsOnlyAtEnd result (left self.new) }

        // A failure has its cause, and nothing else raises the count.
        ensures faults { CountsReadFault result (faults self.old) (faults self.new) };
}
