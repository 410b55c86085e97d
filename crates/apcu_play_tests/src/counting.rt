//! Many workers on one counter.

use crate::gates::{Hold, Holding};
use crate::runs::{Ended, Streams, played, smooth, words_of};
use apcu_play::Status;
use io_edges::Point;
use notation::ByteOut;
use row_search::RegexMaker;
use std::alloc::Global;
use std::process::Abort;
use std::sync::Wait;
use std::test::Fail;
use std::thread::Threads;

// Whether each number from 1 to this one is printed once.
fn each_once(alloc: Global, printed: &[u8], last: usize) -> Result<bool, Fail> {
    let mut seen = Vec::new(alloc);
    for _number in 0..=last {
        seen.push(false)?;
    }
    let mut found = 0usize;
    let mut number = 0usize;
    let mut inside = false;
    for byte in printed {
        match *byte {
            b'i' => {
                inside = true;
                number = 0;
            }
            b'0'..=b'9' if inside => {
                let digit = usize::from(*byte - b'0');
                number = number.saturating_mul(10).saturating_add(digit);
            }
            b';' if inside => {
                inside = false;
                if number == 0 || number >= seen.len() || seen[number] {
                    return Ok(false);
                }
                seen[number] = true;
                found = found.saturating_add(1);
            }
            _ => {}
        }
    }
    Ok(found == last)
}

// The scripts of this many workers, each of which counts `calls` times under one key.
fn counting(alloc: Global, workers: u32, calls: u32) -> Result<ByteOut, Fail> {
    let mut scripts = ByteOut::new(alloc);
    for _worker in 0..workers {
        scripts.push(b"worker\n")?;
        for _call in 0..calls {
            scripts.push(b"apcu_inc s:1:\"n\";\n")?;
        }
    }
    Ok(scripts)
}

// Each number that this many workers reach in this many calls each is printed once, and all events.
fn expect_each(
    rt: &impl Abort,
    alloc: Global,
    ended: &Ended<'_>,
    workers: usize,
    calls: usize,
) -> Result<(), Fail> {
    assert_eq!(rt; ended.status, Status::Done);
    let last = workers.saturating_mul(calls);
    assert!(rt; last < 1_000_000);
    assert!(rt; each_once(alloc, ended.printed(), last)?);
    // A line and an event for each call, a line and an end for each worker, and the journal's head.
    let expected = last
        .saturating_mul(2)
        .saturating_add(workers.saturating_mul(2))
        .saturating_add(1);
    assert_eq!(rt; ended.lines(), expected);
    Ok(())
}

// This many workers count this often each under one key, in the cache without options, and meet
// before their call of this number.
fn expect_counted<R: Threads + Wait + Sync + Abort>(
    rt: &R,
    alloc: Global,
    workers: u32,
    calls: u32,
    meet: u32,
) -> Result<(), Fail> {
    let words = words_of(alloc, &[])?;
    let scripts = counting(alloc, workers, calls)?;
    let meeting = [Hold::Meet(workers, Point::Before(meet))];
    let gate = Holding::new(rt, alloc, &meeting)?;
    let streams = Streams {
        room: 2_097_152,
        ..smooth(scripts.as_slice())
    };
    let ended = played(rt, alloc, &words, streams, &RegexMaker, &gate)?;
    assert!(rt; !gate.has_given_up());
    expect_each(rt, alloc, &ended, workers as usize, calls as usize)
}

#[test]
fn no_step_is_lost(rt: HostRuntime) -> Result<(), Fail> {
    expect_counted(&rt, rt.alloc(), 4, 10_000, 5_000)?;
    expect_counted(&rt, rt.alloc(), 64, 1_000, 500)
}
