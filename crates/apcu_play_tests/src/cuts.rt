//! Each write of a run fails in turn: what was written is the first part of what the run prints.

use crate::runs::{PRINTED, SMALL, STORE_AND_FETCH, Streams, expect_on, smooth};
use apcu_play::Status;
use std::test::Fail;

// The options and the input, what the run prints, and how many bytes are written at a time.
type Case = (&'static [&'static str], &'static [u8], &'static [u8], usize);

const WITH_MAP: &[u8] = b"worker 0\nb:1;\ni:5;b:1;\njournal\n0\n0\n0\n\
    map\nrow 32 16 1 s:1:\"a\";\nfree 48 464\n\
    free words 464\nlargest 464\nruns 1\n\
    fits 16 29\nfits 32 14\nfits 64 7\nfits 128 3\nfits 256 1\n";

const CASES: &[Case] = &[
    (SMALL, STORE_AND_FETCH, PRINTED, 1),
    (
        &["--shm-size=4096", "--slots=32", "--map=1"],
        STORE_AND_FETCH,
        WITH_MAP,
        1,
    ),
    // A bundle in front of a script.
    (
        &["--shm-size=4096", "--slots=32", "--preload=14"],
        b"s:1:\"a\"; i:5;\nworker\napcu_fetch s:1:\"a\";\n",
        b"worker 0\ni:5;b:1;\nworker 1\nb:1;\njournal\n1\n1\n0\n0\n",
        1,
    ),
    // A summary.
    (
        &[
            "--generate=0",
            "--workers=1",
            "--calls=1",
            "--shm-size=8M",
            "--slots=32",
        ],
        b"",
        b"workers 1\ncalls 1\ninserts 1\n\
        counter 0 0\ncounter 1 0\ncounter 2 0\ncounter 3 0\n\
        counter 4 0\ncounter 5 0\ncounter 6 0\ncounter 7 93\n",
        16,
    ),
    // A verdict.
    (&["--verify=52"], STORE_AND_FETCH, b"no: journal\n", 4),
];

// Writes of this many bytes, of which the one of this number fails.
fn unwritten<'a>(input: &'a [u8], piece: usize, at: &'a [u64]) -> Streams<'a> {
    Streams {
        piece,
        fails: [[].as_slice(), at],
        ..smooth(input)
    }
}

#[test]
fn outputs_that_are_cut(rt: HostRuntime) -> Result<(), Fail> {
    for case in CASES {
        let (options, input, printed, piece) = *case;
        assert!(rt; piece > 0);
        for at in 0..printed.len() / piece {
            let fails = [at as u64];
            let streams = unwritten(input, piece, &fails);
            let message = b"apcu_run: write fault\n".as_slice();
            let wanted = (Status::WriteFault, &printed[..piece * at], message);
            expect_on(&rt, rt.alloc(), options, streams, wanted)?;
        }
    }
    Ok(())
}
