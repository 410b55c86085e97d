//! What is wrong with bytes, and where.

ghost use Rattle.std.specs.Prelude.{◌≡◌};
ghost use Rattle.notation.specs.declared.fault.Stop.TheVariants.{Memory, Fault as Found};

use std::alloc::AllocError;
use thiserror::Error;

/// What is wrong with the bytes, in the order of the notation's faults.
#[derive(Clone, Copy, Debug, PartialEq, Eq, Error)]
pub enum Reason {
    /// The bytes end although more are expected.
    #[error("end")]
    End,
    /// A byte that begins no value, key or name that is allowed there.
    #[error("tag")]
    Tag,
    /// Not a number of the range in canonical decimal.
    #[error("number")]
    Number,
    /// A string's bytes are not all there, or are not followed by a quote.
    #[error("length")]
    Length,
    /// Not the expected mark: `:`, `;`, `"`, `{` or `}`.
    #[error("mark")]
    Mark,
    /// A value inside 512 containers.
    #[error("depth")]
    Depth,
    /// A value after 16,777,216 others.
    #[error("places")]
    Places,
    /// A number that names no place, or no object, that began before.
    #[error("target")]
    Target,
    /// A key or a name that exists already.
    #[error("repeat")]
    Repeat,
    /// Not the name of a class.
    #[error("class")]
    Class,
    /// An array's string key that is an integer's decimal.
    #[error("integer")]
    Integer,
    /// A line that begins with no known word.
    #[error("line")]
    Line,
    /// Neither a space nor a line feed, one of which is expected.
    #[error("separator")]
    Separator,
    /// An argument too many, or one of the wrong kind or range, or a missing one.
    #[error("argument")]
    Argument,
    /// A script too many.
    #[error("workers")]
    Workers,
    /// Generators that are nested too deep.
    #[error("generator")]
    Generator,
}

/// Why no value was read.
#[derive(Debug, Drop, Error)]
pub enum ReadFault {
    /// No text of a value starts there: the first fault, and the place of its byte among all
    /// bytes, from 0.
    #[error("byte {place}: {reason}")]
    Bad { place: u64, reason: Reason },
    /// There was no memory for the value.
    #[error("out of memory")]
    Memory,
}

/// The first fault, and how many bytes are left from its place on: a reader of a part of the bytes
/// sees none before it, so it cannot give a place among all.
#[derive(Clone, Copy, Debug)]
pub struct Fault {
    pub reason: Reason,
    pub left: usize,
}

/// Why reading stopped.
#[derive(Debug, Drop)]
pub(crate) enum Stop {
    Memory,
    Fault(Fault),
}

impl From<AllocError> for Stop {
    ghost from_gives = { λ _ e. e ≡ Memory };

    fn from(_e: AllocError) -> Stop {
        Stop::Memory
    }
}

impl From<Fault> for Stop {
    ghost from_gives = { λ fault e. e ≡ Found fault };

    fn from(fault: Fault) -> Stop {
        Stop::Fault(fault)
    }
}
