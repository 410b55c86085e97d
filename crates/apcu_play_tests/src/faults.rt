//! Reads and writes that fail, an input that is too long, and a program without arguments.

use crate::runs::{SMALL, STORE_AND_FETCH, Streams, expect_of, expect_on, smooth};
use apcu_play::Status;
use row_search::RegexMaker;
use std::test::Fail;

// Reads of this many bytes, of which the one of this number fails.
fn unread(piece: usize, at: &[u64]) -> Streams<'_> {
    Streams {
        piece,
        fails: [at, [].as_slice()],
        ..smooth(STORE_AND_FETCH)
    }
}

#[test]
fn reads_that_fail(rt: HostRuntime) -> Result<(), Fail> {
    let message = b"apcu_run: read fault\n".as_slice();
    let wanted = (Status::ReadFault, b"".as_slice(), message);
    for at in 0..=STORE_AND_FETCH.len() {
        let fails = [at as u64];
        expect_on(&rt, rt.alloc(), SMALL, unread(1, &fails), wanted)?;
    }
    for options in [SMALL, &["--map=1"], &["--verify=52"], &["--preload=14"]] {
        expect_on(&rt, rt.alloc(), options, unread(7, &[1]), wanted)?;
    }
    assert_eq!(rt; Status::ReadFault.code(), 3);
    Ok(())
}

#[test]
fn a_write_that_fails(rt: HostRuntime) -> Result<(), Fail> {
    let streams = Streams {
        piece: 5,
        fails: [[].as_slice(), &[1]],
        ..smooth(STORE_AND_FETCH)
    };
    let message = b"apcu_run: write fault\n".as_slice();
    let wanted = (Status::WriteFault, b"worke".as_slice(), message);
    expect_on(&rt, rt.alloc(), SMALL, streams, wanted)?;
    assert_eq!(rt; Status::WriteFault.code(), 4);
    Ok(())
}

#[test]
fn an_input_that_is_too_long(rt: HostRuntime) -> Result<(), Fail> {
    let bytes = vec![in rt.alloc(); b'\n'; 67_108_865]?;
    let streams = Streams {
        piece: 1_048_576,
        ..smooth(&bytes)
    };
    let message = b"apcu_run: input too long\n".as_slice();
    let wanted = (Status::TooLong, b"".as_slice(), message);
    expect_on(&rt, rt.alloc(), SMALL, streams, wanted)
}

#[test]
fn no_words(rt: HostRuntime) -> Result<(), Fail> {
    let message = b"apcu_run: usage\n".as_slice();
    let wanted = (Status::Usage, b"".as_slice(), message);
    let streams = smooth(STORE_AND_FETCH);
    expect_of(&rt, rt.alloc(), &[], streams, &RegexMaker, wanted)
}
