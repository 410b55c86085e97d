//! Counters, integers that are set, and values of generators.

use crate::calls::{Answer, Call, DELETE, EXISTS, FETCH, NO, NONE, ONE, YES, counts, number, put};
use crate::draws::Kinds;
use crate::pair::{Pair, many, play};
use crate::values::{Inner, Value};
use counter_entry::Fate;
use std::test::Fail;

// A sum wraps in 64 bits. A value that is no integer is not counted. A key without a live row
// counts from 0, and an existing row keeps its time to live.
#[test]
fn counts_by_steps(rt: HostRuntime) -> Result<(), Fail> {
    play(
        &rt,
        rt.alloc(),
        0,
        &[
            (100, 1, put(Value::Int(i64::MAX), 0), YES),
            (100, 1, Call::Inc(1, 0), number(i64::MIN)),
            (100, 1, Call::Inc(-1, 0), number(i64::MAX)),
            (100, 2, put(Value::Text(3), 0), YES),
            (100, 2, Call::Inc(1, 0), NONE),
            (100, 2, FETCH, number(-1)),
            (100, 3, Call::Inc(3, 0), number(3)),
            (100, 3, Call::Inc(1, 0), number(4)),
            (100, 3, Call::Inc(1, 0), number(5)),
            (100, 3, FETCH, number(5)),
            (100, 4, Call::Inc(7, 10), number(7)),
            (110, 4, Call::Inc(1, 0), number(8)),
            (111, 4, FETCH, NONE),
            (111, 4, Call::Inc(5, 0), number(5)),
        ],
    )
}

#[test]
fn swaps_what_is_expected(rt: HostRuntime) -> Result<(), Fail> {
    play(
        &rt,
        rt.alloc(),
        0,
        &[
            (100, 1, put(ONE, 10), YES),
            (100, 1, Call::Cas(1, 2), YES),
            (100, 1, Call::Cas(1, 2), NO),
            (100, 1, FETCH, number(2)),
            (111, 1, Call::Cas(2, 3), NO),
            (111, 2, Call::Cas(0, 1), NO),
            (111, 2, FETCH, NONE),
            (111, 3, put(Value::Text(1), 0), YES),
            (111, 3, Call::Cas(-1, 1), NO),
            (111, 3, FETCH, number(-1)),
        ],
    )
}

#[test]
fn makes_room_by_all_rows(rt: HostRuntime) -> Result<(), Fail> {
    let mut pair = Pair::new(rt.alloc(), 512, 0)?;
    pair.each(&rt, (1, 31), (100, Call::Inc(1, 0), number(1)))?;
    pair.play(&rt, &[(100, 0, Call::Counts, counts(0, 0, 1, 1, 1))])
}

const ALONE: Inner = Inner {
    second: None,
    third: None,
    ttl: 0,
};

const ROUND_TWO: Inner = Inner {
    second: Some(2),
    third: None,
    ttl: 0,
};

// It was found under the outermost key.
const fn found(n: i64) -> Answer {
    Answer::Gave(n, Fate::Found)
}

// It was found under another key, or made.
const fn made(n: i64, stored: bool) -> Answer {
    Answer::Gave(n, Fate::Made { stored })
}

// A literal is stored under both keys, and found under each of them later. What was found under the
// inner key is stored under the outer.
#[test]
fn gives_by_generators(rt: HostRuntime) -> Result<(), Fail> {
    play(
        &rt,
        rt.alloc(),
        0,
        &[
            (100, 1, Call::Entry(ROUND_TWO, Value::Int(7)), made(7, true)),
            (100, 2, FETCH, number(7)),
            (100, 1, Call::Entry(ALONE, Value::Int(8)), found(7)),
            (100, 1, DELETE, YES),
            (100, 1, Call::Entry(ROUND_TWO, Value::Int(9)), made(7, true)),
            (100, 1, FETCH, number(7)),
        ],
    )
}

// A literal that cannot fit is returned all the same, and stored nowhere.
#[test]
fn gives_what_is_too_large(rt: HostRuntime) -> Result<(), Fail> {
    play(
        &rt,
        rt.alloc(),
        0,
        &[
            (
                100,
                1,
                Call::Entry(ALONE, Value::Text(3_729)),
                made(-3_729, false),
            ),
            (100, 1, EXISTS, NO),
            (
                100,
                1,
                Call::Entry(ALONE, Value::Text(3_728)),
                made(-3_728, true),
            ),
            (100, 1, Call::Entry(ROUND_TWO, ONE), found(-3_728)),
            (100, 2, Call::Entry(ALONE, ONE), made(1, true)),
            (100, 1, EXISTS, NO),
        ],
    )
}

// Thousands of calls, judged by the plain cache.
#[test]
fn answers_as_the_plain_cache(rt: HostRuntime) -> Result<(), Fail> {
    many(&rt, rt.alloc(), 512, 0, Kinds::All)?;
    many(&rt, rt.alloc(), 1_024, 2, Kinds::All)?;
    many(&rt, rt.alloc(), 2_048, 4, Kinds::All)
}
