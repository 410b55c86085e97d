//! Calls and their results.

use crate::values::{Inner, Value};
use apcu_model::Counts;
use counter_entry::Fate;

// A call of the cache alone, under a key.
#[derive(Clone, Copy)]
pub(crate) enum Act {
    // with a ttl; the flag is whether a live row stays
    Store(Value, u32, bool),
    Fetch,
    Exists,
    Delete,
    Clear,
}

// A call under a key.
#[derive(Clone, Copy)]
pub(crate) enum Call {
    Core(Act),
    // by a step, with a ttl
    Inc(i64, u32),
    // from an integer to another
    Cas(i64, i64),
    // around other entries, around a literal
    Entry(Inner, Value),
    Counts,
}

// The store of a value, with a ttl.
pub(crate) const fn put(value: Value, ttl: u32) -> Call {
    Call::Core(Act::Store(value, ttl, false))
}

// The same if there is no live row.
pub(crate) const fn add(value: Value) -> Call {
    Call::Core(Act::Store(value, 0, true))
}

pub(crate) const ONE: Value = Value::Int(1);

pub(crate) const FETCH: Call = Call::Core(Act::Fetch);

pub(crate) const EXISTS: Call = Call::Core(Act::Exists);

pub(crate) const DELETE: Call = Call::Core(Act::Delete);

pub(crate) const CLEAR: Call = Call::Core(Act::Clear);

#[derive(Clone, Copy, Debug, PartialEq, Eq)]
pub(crate) enum Answer {
    Flag(bool),
    // the number that was found or counted; -1 for any other value
    Number(Option<i64>),
    // the number, or below 0 the length of the text, and how it was found
    Gave(i64, Fate),
    Counts(Counts),
}

pub(crate) const YES: Answer = Answer::Flag(true);

pub(crate) const NO: Answer = Answer::Flag(false);

pub(crate) const NONE: Answer = Answer::Number(None);

// It is found, or the result of counting.
pub(crate) const fn number(n: i64) -> Answer {
    Answer::Number(Some(n))
}

pub(crate) const fn counts(
    hits: u64,
    misses: u64,
    inserts: u64,
    expunges: u64,
    entries: u64,
) -> Answer {
    Answer::Counts(Counts {
        hits,
        misses,
        inserts,
        expunges,
        entries,
    })
}
