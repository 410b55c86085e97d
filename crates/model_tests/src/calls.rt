//! Calls of the plain cache, and their replies and counters.

use crate::play::{Call, NONE, Value, play, small};
use apcu_model::{Reply, Request};
use plain_cache::Plain;
use std::test::Fail;

#[test]
fn stores_and_fetches(rt: HostRuntime) -> Result<(), Fail> {
    play(
        &rt,
        rt.alloc(),
        0,
        &[
            (100, Call::Fetch(1, None)),
            (100, Call::Store(1, Value::Int(5), 0, true)),
            (100, Call::Fetch(1, Some(5))),
            (100, Call::Store(1, Value::Int(7), 0, true)),
            (100, Call::Fetch(1, Some(7))),
            (100, Call::Add(1, Value::Int(9), false)),
            (100, Call::Fetch(1, Some(7))),
            (100, Call::Counts(3, 1, 2, 0, 1)),
        ],
    )
}

#[test]
fn exists_deletes_and_clears(rt: HostRuntime) -> Result<(), Fail> {
    play(
        &rt,
        rt.alloc(),
        0,
        &[
            (100, Call::Exists(1, false)),
            (100, Call::Delete(1, false)),
            (100, Call::Store(1, Value::Int(5), 0, true)),
            (100, Call::Store(2, Value::Int(6), 0, true)),
            (100, Call::Exists(1, true)),
            (100, Call::Delete(1, true)),
            (100, Call::Exists(1, false)),
            (100, Call::Fetch(1, None)),
            (100, Call::Fetch(2, Some(6))),
            (100, Call::Counts(1, 1, 2, 0, 1)),
            (100, Call::Clear),
            (100, Call::Exists(2, false)),
            (100, Call::Counts(0, 0, 0, 0, 0)),
        ],
    )
}

// A sum wraps in 64 bits. A value that is no integer is not counted. A key without a live row
// counts from 0, and an existing row keeps its time to live.
#[test]
fn counts(rt: HostRuntime) -> Result<(), Fail> {
    play(
        &rt,
        rt.alloc(),
        0,
        &[
            (100, Call::Store(1, Value::Int(i64::MAX), 0, true)),
            (100, Call::Inc(1, 1, 0, Some(i64::MIN))),
            (100, Call::Inc(1, -1, 0, Some(i64::MAX))),
            (100, Call::Store(2, Value::Text(3), 0, true)),
            (100, Call::Inc(2, 1, 0, None)),
            (100, Call::Fetch(2, Some(-1))),
            (100, Call::Inc(3, 3, 0, Some(3))),
            (100, Call::Inc(3, 1, 0, Some(4))),
            (100, Call::Inc(3, 1, 0, Some(5))),
            (100, Call::Inc(4, 7, 10, Some(7))),
            (110, Call::Inc(4, 1, 0, Some(8))),
            (111, Call::Inc(4, 5, 0, Some(5))),
            (111, Call::Counts(1, 0, 5, 0, 4)),
            (111, Call::Clear),
            (111, Call::Fill(0)),
            (111, Call::Inc(31, 2, 0, Some(2))),
            (111, Call::Counts(0, 0, 1, 1, 1)),
        ],
    )
}

#[test]
fn swaps_what_is_expected(rt: HostRuntime) -> Result<(), Fail> {
    play(
        &rt,
        rt.alloc(),
        0,
        &[
            (100, Call::Store(1, Value::Int(1), 10, true)),
            (100, Call::Cas(1, 1, 2, true)),
            (100, Call::Cas(1, 1, 2, false)),
            (100, Call::Fetch(1, Some(2))),
            (111, Call::Cas(1, 2, 3, false)),
            (111, Call::Cas(2, 0, 1, false)),
            (111, Call::Exists(2, false)),
            (111, Call::Store(3, Value::Text(1), 0, true)),
            (111, Call::Cas(3, -1, 1, false)),
            (111, Call::Fetch(3, Some(-1))),
            (111, Call::Counts(2, 0, 2, 0, 2)),
        ],
    )
}

// The value inside is stored under both keys; then another key gets it from the inner one.
#[test]
fn enters_what_is_missing(rt: HostRuntime) -> Result<(), Fail> {
    play(
        &rt,
        rt.alloc(),
        0,
        &[
            (100, Call::Entry([(1, 0), (2, 0), NONE], Value::Int(7), 7)),
            (100, Call::Counts(0, 2, 2, 0, 2)),
            (100, Call::Fetch(2, Some(7))),
            (100, Call::Entry([(1, 0), NONE, NONE], Value::Int(8), 7)),
            (100, Call::Counts(2, 2, 2, 0, 2)),
            (100, Call::Delete(1, true)),
            (100, Call::Entry([(1, 0), (2, 0), (3, 0)], Value::Int(9), 7)),
            (100, Call::Counts(3, 3, 3, 0, 2)),
            (100, Call::Fetch(1, Some(7))),
            (100, Call::Exists(3, false)),
            (100, Call::Entry([NONE, NONE, NONE], Value::Int(5), 5)),
            (100, Call::Counts(4, 3, 3, 0, 2)),
        ],
    )
}

// Each new row has its own time to live. A key that occurs twice is missed twice, and stored once,
// by the inner entry.
#[test]
fn enters_each_level(rt: HostRuntime) -> Result<(), Fail> {
    play(
        &rt,
        rt.alloc(),
        0,
        &[
            (
                100,
                Call::Entry([(1, 10), (2, 20), (3, 0)], Value::Int(7), 7),
            ),
            (111, Call::Exists(1, false)),
            (111, Call::Exists(2, true)),
            (121, Call::Exists(2, false)),
            (121, Call::Fetch(3, Some(7))),
            (121, Call::Entry([(2, 0), (3, 0), NONE], Value::Int(8), 7)),
            (121, Call::Counts(2, 4, 4, 0, 3)),
            (121, Call::Entry([(4, 0), (4, 10), NONE], Value::Int(9), 9)),
            (121, Call::Counts(2, 6, 5, 0, 4)),
            (132, Call::Exists(4, false)),
        ],
    )
}

// A value that cannot be stored is returned all the same. Of two blocks that do not both fit the
// outer one is stored last, so it stays; and the counter of misses, counted before, is 0 again.
#[test]
fn enters_what_finds_no_place(rt: HostRuntime) -> Result<(), Fail> {
    play(
        &rt,
        rt.alloc(),
        0,
        &[
            (
                100,
                Call::Entry([(1, 0), NONE, NONE], Value::Text(3_729), -1),
            ),
            (100, Call::Exists(1, false)),
            (100, Call::Counts(0, 1, 0, 0, 0)),
            (
                100,
                Call::Entry([(1, 0), (2, 0), NONE], Value::Text(2_000), -1),
            ),
            (100, Call::Exists(1, true)),
            (100, Call::Exists(2, false)),
            (100, Call::Counts(0, 0, 1, 1, 1)),
            (100, Call::Clear),
            (100, Call::Fill(0)),
            (100, Call::Entry([(31, 0), (32, 0), NONE], Value::Int(7), 7)),
            (100, Call::Counts(0, 0, 2, 1, 2)),
        ],
    )
}

#[test]
fn retires(rt: HostRuntime) -> Result<(), Fail> {
    let mut plain = Plain::new(rt.alloc(), &small(0));
    assert!(rt; matches!(plain.ask(&Request::Retire, 0)?, Reply::Ended));
    Ok(())
}

#[test]
fn fits_what_an_empty_segment_takes(rt: HostRuntime) -> Result<(), Fail> {
    play(
        &rt,
        rt.alloc(),
        0,
        &[
            (100, Call::Store(1, Value::Int(1), 0, true)),
            (100, Call::Store(2, Value::Text(3_729), 0, false)),
            (100, Call::Fetch(1, Some(1))),
            (100, Call::Counts(1, 0, 1, 0, 1)),
            (100, Call::Store(2, Value::Text(3_728), 0, true)),
            (100, Call::Fetch(1, None)),
            (100, Call::Fetch(2, Some(-1))),
            (100, Call::Counts(1, 1, 1, 1, 1)),
        ],
    )
}

#[test]
fn makes_room_by_all_rows(rt: HostRuntime) -> Result<(), Fail> {
    play(
        &rt,
        rt.alloc(),
        0,
        &[
            (100, Call::Fill(0)),
            (100, Call::Counts(0, 0, 30, 0, 30)),
            (100, Call::Store(31, Value::Int(1), 0, true)),
            (100, Call::Counts(0, 0, 1, 1, 1)),
            (100, Call::Fetch(1, None)),
            (100, Call::Fetch(31, Some(1))),
            (100, Call::Clear),
            (100, Call::Counts(0, 0, 0, 0, 0)),
        ],
    )
}

#[test]
fn makes_room_by_expired_rows(rt: HostRuntime) -> Result<(), Fail> {
    play(
        &rt,
        rt.alloc(),
        10,
        &[
            (100, Call::Fill(5)),
            (106, Call::Store(31, Value::Int(1), 0, true)),
            (106, Call::Fetch(2, Some(1))),
            (106, Call::Fetch(1, None)),
            (106, Call::Fetch(31, Some(1))),
            (106, Call::Counts(2, 1, 31, 0, 30)),
        ],
    )
}

#[test]
fn expires(rt: HostRuntime) -> Result<(), Fail> {
    play(
        &rt,
        rt.alloc(),
        0,
        &[
            (100, Call::Store(1, Value::Int(1), 10, true)),
            (110, Call::Fetch(1, Some(1))),
            (111, Call::Fetch(1, None)),
            (111, Call::Exists(1, false)),
            (111, Call::Delete(1, false)),
            (111, Call::Counts(1, 1, 1, 0, 1)),
            (111, Call::Add(1, Value::Int(2), true)),
            (111, Call::Add(1, Value::Int(3), false)),
            (111, Call::Fetch(1, Some(2))),
        ],
    )
}

// The cache's own ttl is 10 seconds from the last use, which a fetch renews.
#[test]
fn finds_a_row_that_was_not_used(rt: HostRuntime) -> Result<(), Fail> {
    play(
        &rt,
        rt.alloc(),
        10,
        &[
            (100, Call::Store(1, Value::Int(1), 0, true)),
            (111, Call::Exists(1, true)),
            (111, Call::Add(1, Value::Int(2), false)),
            (111, Call::Fetch(1, Some(1))),
            (111, Call::Delete(1, true)),
            (111, Call::Exists(1, false)),
        ],
    )
}

// Two adjacent blocks that are freed become one gap, whichever is freed first.
#[test]
fn merges_gaps(rt: HostRuntime) -> Result<(), Fail> {
    for (first, second) in [(1, 2), (2, 1)] {
        play(
            &rt,
            rt.alloc(),
            0,
            &[
                (100, Call::Store(1, Value::Text(1_168), 0, true)),
                (100, Call::Store(2, Value::Text(1_168), 0, true)),
                (100, Call::Store(3, Value::Text(1_168), 0, true)),
                (100, Call::Delete(first, true)),
                (100, Call::Delete(second, true)),
                (100, Call::Store(4, Value::Text(2_448), 0, true)),
                (100, Call::Exists(3, true)),
                (100, Call::Counts(0, 0, 4, 0, 2)),
            ],
        )?;
    }
    Ok(())
}
