//! The sinks of bytes.

ghost use Rattle.std.specs.Prelude.{◌≡◌, ℕ, ◌<◌, List, length, Option};
ghost use Rattle.std.specs.Io.KnownBytes.{append_known};
ghost use Rattle.io_edges.specs.Writing.{bytes_taken, TakesWithin, CountsWriteFault};

/// The result of a write.
#[derive(Clone, Copy, Debug, PartialEq, Eq)]
pub enum Put {
    /// This many of the first bytes were taken.
    Took(usize),
    /// The write failed, and took nothing.
    Failed,
}

/// Takes bytes, in pieces of its own choice.
pub trait Sink {
    /// The bytes that were taken so far, or `None` if the sink does not report them.
    ghost held: { Self → Option (List ℕ) };

    /// How often a write has failed. The count stops at the maximum of a `u64`.
    ghost faults: { Self → ℕ };

    /// Takes some of the first bytes of `from`.
    fn write(&mut self, from: &[u8]) -> Put
        requires { 0 < length from.now }

        // At least one byte, and no more than there are.
        ensures took { TakesWithin result (length from.now) }

        // What is taken follows what is held.
        ensures bytes { held self.new ≡ append_known (held self.old) (bytes_taken result from.now) }

        // A failure has its cause, and nothing else raises the count.
        ensures faults { CountsWriteFault result (faults self.old) (faults self.new) };
}
