//! The maker of the regexes of patterns, and when it is called.

use crate::gates::Hold::Meet;
use crate::gates::Holding;
use crate::runs::{PRINTED, SMALL, STORE_AND_FETCH, expect_of, played, smooth, words_of};
use apcu_play::Status;
use io_edges::Point::Before;
use row_search::{RefuseAll, RegexMaker};
use std::test::Fail;

const BY_A_PATTERN: &[u8] = b"worker\n\
    apcu_store s:1:\"a\"; i:1;\n\
    APCUIterator_delete s:6:\"/^a$/i\";\n";

// A maker that refuses each pattern has no effect on a run without one.
#[test]
fn a_maker_that_refuses(rt: HostRuntime) -> Result<(), Fail> {
    let words = words_of(rt.alloc(), SMALL)?;
    for (input, wanted) in [
        (STORE_AND_FETCH, (Status::Done, PRINTED, b"".as_slice())),
        (BY_A_PATTERN, (Status::Pattern, b"", b"apcu_run: pattern\n")),
    ] {
        expect_of(&rt, rt.alloc(), &words, smooth(input), &RefuseAll, wanted)?;
    }
    Ok(())
}

// A pattern is refused before any worker makes a call.
#[test]
fn refused_before_a_call(rt: HostRuntime) -> Result<(), Fail> {
    let words = words_of(rt.alloc(), SMALL)?;
    for (maker_refuses, calls) in [(true, 0), (false, 1)] {
        let gate = Holding::new(&rt, rt.alloc(), &[Meet(1, Before(0))])?;
        let streams = smooth(BY_A_PATTERN);
        let ended = if maker_refuses {
            played(&rt, rt.alloc(), &words, streams, &RefuseAll, &gate)?
        } else {
            played(&rt, rt.alloc(), &words, streams, &RegexMaker, &gate)?
        };
        assert_eq!(rt; ended.status == Status::Pattern, maker_refuses);
        assert_eq!(rt; gate.comings(), calls);
    }
    Ok(())
}
