//! Runs of scripts that are made from a number: their summary, and that the input is not read.

use crate::runs::{STORE_AND_FETCH, Streams, expect_on, smooth};
use apcu_play::Status;
use notation::ByteOut;
use script_read::{Call, Scripts, generate};
use std::alloc::Global;
use std::test::Fail;

const OF_NO_CALL: &[u8] = b"workers 1\ncalls 0\ninserts 0\n\
    counter 0 0\ncounter 1 0\ncounter 2 0\ncounter 3 0\n\
    counter 4 0\ncounter 5 0\ncounter 6 0\ncounter 7 0\n";

// The sum of the steps on a counter in the scripts.
fn counted(scripts: &Scripts, counter: &[u8]) -> i64 {
    let mut sum = 0i64;
    for worker in 0..scripts.len() {
        let script = scripts.at(worker);
        for i in 0..script.len() {
            if let Call::Inc { key, step, ttl: _ } = &script.at(i).call {
                if key.as_slice() == counter {
                    sum = sum.wrapping_add(*step);
                }
            }
        }
    }
    sum
}

// How many stores are among the calls.
fn stores(scripts: &Scripts) -> u64 {
    let mut count = 0u64;
    for worker in 0..scripts.len() {
        let script = scripts.at(worker);
        for i in 0..script.len() {
            if let Call::StoreOne { .. } = &script.at(i).call {
                count = count.saturating_add(1);
            }
        }
    }
    count
}

// The summary: each of the eight counters is created by one of the calls.
fn due(alloc: Global) -> Result<ByteOut, Fail> {
    const COUNTERS: [&[u8]; 8] = [b"c0", b"c1", b"c2", b"c3", b"c4", b"c5", b"c6", b"c7"];
    let scripts = generate(alloc, 7, 8, 20_000)?;
    let mut text = ByteOut::new(alloc);
    let inserts = stores(&scripts).saturating_add(8);
    let head = format!(in alloc; "workers 8\ncalls 160000\ninserts {inserts}\n")?;
    text.push(head.as_bytes())?;
    for (n, counter) in COUNTERS.iter().enumerate() {
        let sum = counted(&scripts, counter);
        let line = format!(in alloc; "counter {n} {sum}\n")?;
        text.push(line.as_bytes())?;
    }
    Ok(text)
}

// Eight workers meet in any order: the summary is the same each time, and known before.
#[test]
fn many_calls_of_many_workers(rt: HostRuntime) -> Result<(), Fail> {
    let options = ["--generate", "7", "--workers", "8", "--calls", "20000"];
    let due = due(rt.alloc())?;
    for _time in 0..2u32 {
        let wanted = (Status::Done, due.as_slice(), b"".as_slice());
        expect_on(&rt, rt.alloc(), &options, smooth(b""), wanted)?;
    }
    Ok(())
}

// A source whose first read would fail, and one that holds no scripts.
#[test]
fn inputs_are_left_alone(rt: HostRuntime) -> Result<(), Fail> {
    let options = ["--generate=0", "--workers=1", "--calls=0"];
    let failing = Streams {
        fails: [&[0], [].as_slice()],
        ..smooth(STORE_AND_FETCH)
    };
    for streams in [failing, smooth(b"no script\n")] {
        let wanted = (Status::Done, OF_NO_CALL, b"".as_slice());
        expect_on(&rt, rt.alloc(), &options, streams, wanted)?;
    }
    Ok(())
}
