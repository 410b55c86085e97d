//! The program's options, a row for each.

ghost use Rattle.std.specs.Prelude.{◌≡◌, IfSome};
ghost use Rattle.clap.specs.Words.{found_of, rows_of};
ghost use Rattle.conf_read.specs.Options.{option_of, reader_of, given, given_if, IsWithin};

use crate::numbers::{number_in, words_in_size};
use apcu_model::{LONGEST_INPUT, MOST_SEGMENTS, MOST_SLOTS, MOST_WORKERS};
use clap::ArgMatches;

/// How the value of an option is read.
#[derive(Clone, Copy)]
pub(crate) enum Reader {
    /// A size in bytes, as words of 8 bytes.
    Size,
    /// A number of at most twenty digits, between these two.
    Number { low: u64, high: u64 },
}

/// An option: its name, its default, if there is one, and how its value is read.
#[derive(Clone, Copy)]
pub(crate) struct Row {
    pub(crate) name: &'static str,
    pub(crate) default: Option<u64>,
    pub(crate) reader: Reader,
}

/// The size of each segment, PHP's `apc.shm_size`.
pub(crate) const SHM_SIZE: Row = Row {
    name: "shm-size",
    default: Some(4_194_304),
    reader: Reader::Size,
};

/// The number of segments, PHP's `apc.shm_segments`.
pub(crate) const SEGMENTS: Row = Row {
    name: "segments",
    default: Some(1),
    reader: Reader::Number {
        low: 1,
        high: MOST_SEGMENTS as u64,
    },
};

/// The number of hash chains.
pub(crate) const SLOTS: Row = Row {
    name: "slots",
    default: Some(4096),
    reader: Reader::Number {
        low: 2,
        high: MOST_SLOTS as u64,
    },
};

/// PHP's `apc.ttl`, in seconds.
pub(crate) const TTL: Row = Row {
    name: "ttl",
    default: Some(0),
    reader: Reader::Number {
        low: 0,
        high: u32::MAX as u64,
    },
};

/// Whether a call's moment is the start of its request, PHP's `apc.use_request_time`.
pub(crate) const USE_REQUEST_TIME: Row = Row {
    name: "use-request-time",
    default: Some(0),
    reader: Reader::Number { low: 0, high: 1 },
};

/// The number from which scripts are made, instead of an input's.
pub(crate) const GENERATE: Row = Row {
    name: "generate",
    default: None,
    reader: Reader::Number {
        low: 0,
        high: u64::MAX,
    },
};

/// How many workers generated scripts are for.
pub(crate) const WORKERS: Row = Row {
    name: "workers",
    default: Some(4),
    reader: Reader::Number {
        low: 1,
        high: MOST_WORKERS as u64,
    },
};

/// How many calls each of them makes.
pub(crate) const CALLS: Row = Row {
    name: "calls",
    default: Some(1000),
    reader: Reader::Number {
        low: 0,
        high: 1_000_000,
    },
};

/// How many bytes of a bundle precede the scripts.
pub(crate) const PRELOAD: Row = Row {
    name: "preload",
    default: None,
    reader: Reader::Number {
        low: 0,
        high: LONGEST_INPUT as u64,
    },
};

/// How many bytes of scripts precede an output that is to be judged.
pub(crate) const VERIFY: Row = Row {
    name: "verify",
    default: None,
    reader: Reader::Number {
        low: 0,
        high: LONGEST_INPUT as u64,
    },
};

/// Whether the map of the cache's words is printed after a play.
pub(crate) const MAP: Row = Row {
    name: "map",
    default: Some(0),
    reader: Reader::Number { low: 0, high: 1 },
};

/// All options, by which the command is built.
pub(crate) const OPTIONS: [Row; 11] = [
    SHM_SIZE,
    SEGMENTS,
    SLOTS,
    TTL,
    USE_REQUEST_TIME,
    GENERATE,
    WORKERS,
    CALLS,
    PRELOAD,
    VERIFY,
    MAP,
];

impl Reader {
    fn read(self, text: &str) -> Option<u64>
        ensures is { result ≡ reader_of self text.now }
        ensures within { IfSome result (λ n. IsWithin self n) }
    {
        match self {
            Reader::Size => words_in_size(text),
            Reader::Number { low, high } => {
                let number = number_in(text.as_bytes(), 20, high)?;
                if low <= number { Some(number) } else { None }
            }
        }
    }
}

// The value of an option: `None` if it is refused, and `Some(None)` if the option is left out and
// has no default.
pub(crate) fn given_if(matches: &ArgMatches<'_>, row: Row) -> Option<Option<u64>>
    requires { IfSome row.default (λ n. IsWithin row.reader n) }
    ensures is { result ≡ given_if (option_of row) (rows_of (found_of matches.now)) }
    ensures within { IfSome result (λ given. IfSome given (λ n. IsWithin row.reader n)) }
{
    match matches.get_str(row.name) {
        Some(text) => Some(Some(row.reader.read(text)?)),
        None => Some(row.default),
    }
}

// The value of an option that has a default.
pub(crate) fn given(matches: &ArgMatches<'_>, row: Row) -> Option<u64>
    requires { IfSome row.default (λ n. IsWithin row.reader n) }
    ensures is { result ≡ given (option_of row) (rows_of (found_of matches.now)) }
    ensures within { IfSome result (λ n. IsWithin row.reader n) }
{
    given_if(matches, row)?
}
