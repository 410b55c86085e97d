//! Workers on threads of their own, held at points of their scripts.

use crate::gates::Hold::{self, Meet, Until};
use crate::gates::Holding;
use crate::pieces::Piece::{self, Text, Zs};
use crate::pieces::spelled;
use crate::runs::{LARGER, SMALL, played, smooth, words_of};
use apcu_play::Status;
use io_edges::NoGate;
use io_edges::Point::{After, Before, Chunk, Pinned};
use notation::ByteOut;
use row_search::RegexMaker;
use std::alloc::Global;
use std::process::Abort;
use std::sync::Wait;
use std::test::Fail;
use std::thread::Threads;

// Two scripts, the points at which their workers wait, and what they print. The last two events are
// their ends, in either order.
#[derive(Clone, Copy)]
struct Held {
    scripts: &'static [Piece],
    holds: &'static [Hold],
    printed: &'static [Piece],
}

// Whether these pieces are printed, and after them the ends of both workers.
fn ends_after(alloc: Global, pieces: &[Piece], printed: &[u8]) -> Result<bool, Fail> {
    let wanted = spelled(alloc, pieces)?;
    let ends = printed.strip_prefix(wanted.as_slice()).unwrap_or(&[]);
    Ok(ends == b"0\n1\n".as_slice() || ends == b"1\n0\n".as_slice())
}

fn expect_held<R: Threads + Wait + Sync + Abort>(
    rt: &R,
    alloc: Global,
    case: Held,
) -> Result<(), Fail> {
    let words = words_of(alloc, SMALL)?;
    let scripts = spelled(alloc, case.scripts)?;
    let gate = Holding::new(rt, alloc, case.holds)?;
    let ended = played(
        rt,
        alloc,
        &words,
        smooth(scripts.as_slice()),
        &RegexMaker,
        &gate,
    )?;
    assert_eq!(rt; ended.status, Status::Done);
    assert!(rt; !gate.has_given_up());
    assert!(rt; ends_after(alloc, case.printed, ended.printed())?);
    Ok(())
}

// Worker 0 has a block pinned until worker 1 has made its second call.
const WHILE_PINNED: &[Hold] = &[
    Until((1, Before(0)), (0, Pinned(1))),
    Until((0, Pinned(1)), (1, After(1))),
];

// The same, and then worker 1 continues once worker 0 has its reply.
const PINNED_AND_AFTER: &[Hold] = &[
    Until((1, Before(0)), (0, Pinned(1))),
    Until((0, Pinned(1)), (1, After(1))),
    Until((1, Before(2)), (0, After(1))),
    Until((0, After(1)), (1, After(2))),
];

// A pinned block is handed out again only after its copy.
const GIVEN_OUT_AFTER: Held = Held {
    scripts: &[
        Text(b"worker\napcu_store s:1:\"a\"; s:2000:\""),
        Zs(2000),
        Text(b"\";\napcu_fetch s:1:\"a\";\nworker\napcu_delete s:1:\"a\";\n"),
        Text(b"apcu_store s:1:\"b\"; s:3728:\""),
        Zs(3728),
        Text(b"\";\napcu_store s:1:\"b\"; s:3728:\""),
        Zs(3728),
        Text(b"\";\n"),
    ],
    holds: PINNED_AND_AFTER,
    printed: &[
        Text(b"worker 0\nb:1;\ns:2000:\""),
        Zs(2000),
        Text(b"\";b:1;\nworker 1\nb:1;\nb:0;\nb:1;\njournal\n0\n0\n1 0\n1 0\n1\n"),
    ],
};

// The row is deleted.
const DELETED: Held = Held {
    scripts: &[
        Text(b"worker\napcu_store s:1:\"a\"; s:2000:\""),
        Zs(2000),
        Text(b"\";\napcu_fetch s:1:\"a\";\nworker\napcu_delete s:1:\"a\";\n"),
        Text(b"apcu_exists s:1:\"a\";\n"),
    ],
    holds: WHILE_PINNED,
    printed: &[
        Text(b"worker 0\nb:1;\ns:2000:\""),
        Zs(2000),
        Text(b"\";b:1;\nworker 1\nb:1;\nb:0;\njournal\n0\n0\n1 0\n1\n"),
    ],
};

// An iterator deletes it, in one step over all slots.
const DELETED_BY_AN_ITERATOR: Held = Held {
    scripts: &[
        Text(b"worker\napcu_store s:1:\"a\"; s:2000:\""),
        Zs(2000),
        Text(b"\";\napcu_fetch s:1:\"a\";\nworker\nAPCUIterator_delete N;\n"),
        Text(b"apcu_exists s:1:\"a\";\n"),
    ],
    holds: WHILE_PINNED,
    printed: &[
        Text(b"worker 0\nb:1;\ns:2000:\""),
        Zs(2000),
        Text(b"\";b:1;\nworker 1\nb:1;\nb:0;\njournal\n0\n0\n1 0\n1\n"),
    ],
};

// It is deleted, and an iterator finds it among the removed rows.
const LISTED_AS_DELETED: Held = Held {
    scripts: &[
        Text(b"worker\napcu_store s:1:\"a\"; s:2000:\""),
        Zs(2000),
        Text(b"\";\napcu_fetch s:1:\"a\";\nworker\napcu_delete s:1:\"a\";\n"),
        Text(b"APCUIterator N; a:2:{i:0;s:3:\"key\";i:1;s:13:\"deletion_time\";}"),
        Text(b" i:100; s:7:\"deleted\";\n"),
    ],
    holds: WHILE_PINNED,
    printed: &[
        Text(b"worker 0\nb:1;\ns:2000:\""),
        Zs(2000),
        Text(b"\";b:1;\nworker 1\nb:1;\n"),
        Text(b"a:1:{i:0;a:2:{s:3:\"key\";s:1:\"a\";s:13:\"deletion_time\";i:0;}}\n"),
        Text(b"journal\n0\n0\n1 0\n1\n"),
    ],
};

// The row is replaced by another one of its key.
const REPLACED: Held = Held {
    scripts: &[
        Text(b"worker\napcu_store s:1:\"a\"; s:2000:\""),
        Zs(2000),
        Text(b"\";\napcu_fetch s:1:\"a\";\nworker\napcu_store s:1:\"a\"; s:1000:\""),
        Zs(1000),
        Text(b"\";\napcu_fetch s:1:\"a\";\n"),
    ],
    holds: WHILE_PINNED,
    printed: &[
        Text(b"worker 0\nb:1;\ns:2000:\""),
        Zs(2000),
        Text(b"\";b:1;\nworker 1\nb:1;\ns:1000:\""),
        Zs(1000),
        Text(b"\";b:1;\njournal\n0\n0\n1 0\n1\n"),
    ],
};

// The cache is cleared.
const CLEARED: Held = Held {
    scripts: &[
        Text(b"worker\napcu_store s:1:\"a\"; s:2000:\""),
        Zs(2000),
        Text(b"\";\napcu_fetch s:1:\"a\";\nworker\napcu_clear_cache\napcu_exists s:1:\"a\";\n"),
    ],
    holds: WHILE_PINNED,
    printed: &[
        Text(b"worker 0\nb:1;\ns:2000:\""),
        Zs(2000),
        Text(b"\";b:1;\nworker 1\nb:1;\nb:0;\njournal\n0\n0\n1 0\n1\n"),
    ],
};

// The cache is expunged, and there is no room for the value even so.
const EXPUNGED: Held = Held {
    scripts: &[
        Text(b"worker\napcu_store s:1:\"a\"; s:2000:\""),
        Zs(2000),
        Text(b"\";\napcu_fetch s:1:\"a\";\nworker\napcu_store s:1:\"b\"; s:3728:\""),
        Zs(3728),
        Text(b"\";\napcu_exists s:1:\"a\";\n"),
    ],
    holds: WHILE_PINNED,
    printed: &[
        Text(b"worker 0\nb:1;\ns:2000:\""),
        Zs(2000),
        Text(b"\";b:1;\nworker 1\nb:0;\nb:0;\njournal\n0\n0\n1 0\n1\n"),
    ],
};

// The row is copied until three calls of worker 1 were made.
const PINNED_FOR_THREE: &[Hold] = &[
    Until((1, Before(0)), (0, Pinned(1))),
    Until((0, Pinned(1)), (1, After(2))),
];

// The row has expired, and a store in its slot drops it: it is listed as deleted.
const EXPIRED: Held = Held {
    scripts: &[
        Text(b"worker\napcu_store s:1:\"a\"; s:2000:\""),
        Zs(2000),
        Text(b"\"; i:10;\napcu_fetch s:1:\"a\";\nworker\ntime i:11;\n"),
        Text(b"apcu_store s:1:\"A\"; i:1;\napcu_exists s:1:\"a\";\n"),
        Text(b"APCUIterator N; a:1:{i:0;s:3:\"key\";} i:100; s:7:\"deleted\";\n"),
    ],
    holds: PINNED_FOR_THREE,
    printed: &[
        Text(b"worker 0\nb:1;\ns:2000:\""),
        Zs(2000),
        Text(b"\";b:1;\nworker 1\nb:1;\nb:0;\na:1:{i:0;a:1:{s:3:\"key\";s:1:\"a\";}}\n"),
        Text(b"journal\n0\n0\n1 0\n1\n1\n"),
    ],
};

#[test]
fn a_copy_is_left_alone(rt: HostRuntime) -> Result<(), Fail> {
    for case in [
        GIVEN_OUT_AFTER,
        DELETED,
        DELETED_BY_AN_ITERATOR,
        LISTED_AS_DELETED,
        REPLACED,
        CLEARED,
        EXPUNGED,
        EXPIRED,
    ] {
        expect_held(&rt, rt.alloc(), case)?;
    }
    Ok(())
}

// The workers make their calls in turn, worker 0 first. In a single thread the wait is given up.
const IN_TURN: &[Hold] = &[
    Until((1, Before(0)), (0, After(0))),
    Until((0, Before(1)), (1, After(0))),
    Until((1, Before(1)), (0, After(1))),
    Until((0, After(1)), (1, After(1))),
];

const ASKED_IN_TURN: Held = Held {
    scripts: &[
        Text(b"worker\napcu_add s:1:\"n\"; i:0;\napcu_add s:1:\"n\"; i:0;\n"),
        Text(b"worker\napcu_exists s:1:\"n\";\napcu_delete s:1:\"n\";\n"),
    ],
    holds: IN_TURN,
    printed: &[Text(b"worker 0\nb:1;\nb:0;\nworker 1\nb:1;\nb:1;\njournal\n0\n1\n0\n1\n")],
};

const COUNTED_IN_TURN: Held = Held {
    scripts: &[
        Text(b"worker\napcu_inc s:1:\"n\";\napcu_inc s:1:\"n\";\n"),
        Text(b"worker\napcu_inc s:1:\"n\";\napcu_inc s:1:\"n\";\n"),
    ],
    holds: IN_TURN,
    printed: &[
        Text(b"worker 0\ni:1;b:1;\ni:3;b:1;\nworker 1\ni:2;b:1;\ni:4;b:1;\n"),
        Text(b"journal\n0\n1\n0\n1\n"),
    ],
};

// Worker 1 has its one call between the first two steps of worker 0's walk.
const BETWEEN_STEPS: &[Hold] = &[
    Until((1, Before(0)), (0, Chunk(3))),
    Until((0, Chunk(3)), (1, After(0))),
    Until((1, After(0)), (0, After(3))),
];

// A row that the walk has returned is replaced.
const REPLACED_BEHIND_A_WALK: Held = Held {
    scripts: &[
        Text(b"worker\napcu_store s:1:\"a\"; i:1;\napcu_store s:1:\"A\"; i:1;\n"),
        Text(b"apcu_store s:1:\"b\"; i:1;\nAPCUIterator N; a:1:{i:0;s:3:\"key\";} i:1;\n"),
        Text(b"worker\napcu_store s:1:\"A\"; i:2;\n"),
    ],
    holds: BETWEEN_STEPS,
    printed: &[
        Text(b"worker 0\nb:1;\nb:1;\nb:1;\na:3:{i:0;a:1:{s:3:\"key\";s:1:\"a\";}"),
        Text(b"i:1;a:1:{s:3:\"key\";s:1:\"A\";}i:2;a:1:{s:3:\"key\";s:1:\"b\";}}\n"),
        Text(b"worker 1\nb:1;\njournal\n0\n0\n0\n0\n1\n0\n0\n"),
    ],
};

#[test]
fn workers_meet(rt: HostRuntime) -> Result<(), Fail> {
    for case in [ASKED_IN_TURN, COUNTED_IN_TURN, REPLACED_BEHIND_A_WALK] {
        expect_held(&rt, rt.alloc(), case)?;
    }
    Ok(())
}

// The workers of a generated run wait for one another, each before a call. One that is played after
// another one, or not at all, arrives alone or never.
#[test]
fn generated_workers_meet(rt: HostRuntime) -> Result<(), Fail> {
    let alloc = rt.alloc();
    let options = [
        "--shm-size=8M",
        "--slots=32",
        "--generate=7",
        "--workers=8",
        "--calls=200",
    ];
    let words = words_of(alloc, &options)?;
    let gate = Holding::new(&rt, alloc, &[Meet(8, Before(100))])?;
    let ended = played(&rt, alloc, &words, smooth(b""), &RegexMaker, &gate)?;
    assert_eq!(rt; ended.status, Status::Done);
    assert!(rt; !gate.has_given_up());
    assert_eq!(rt; gate.comings(), 8);
    Ok(())
}

// As many workers as possible, each of which stores what it then fetches.
#[test]
fn as_many_workers_as_may_be(rt: HostRuntime) -> Result<(), Fail> {
    let alloc = rt.alloc();
    let words = words_of(alloc, LARGER)?;
    let mut scripts = ByteOut::new(alloc);
    for _worker in 0..64 {
        scripts.push(b"worker\napcu_store s:1:\"a\"; s:3:\"abc\";\napcu_fetch s:1:\"a\";\n")?;
    }
    let ended = played(
        &rt,
        alloc,
        &words,
        smooth(scripts.as_slice()),
        &RegexMaker,
        &NoGate,
    )?;
    assert_eq!(rt; ended.status, Status::Done);
    let first = b"worker 0\nb:1;\ns:3:\"abc\";b:1;\nworker 1\nb:1;\ns:3:\"abc\";b:1;\n";
    assert!(rt; ended.printed().starts_with(first));
    // Three lines for each worker, one for the journal, and three events of each.
    assert_eq!(rt; ended.lines(), 385);
    Ok(())
}
