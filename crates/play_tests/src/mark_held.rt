//! Rows that are copied while they are dropped, and which masks are legal.

use crate::mark_requests::{Act, request_of};
use crate::marks::{Event, Table};
use apcu_model::{Conf, Reply};
use std::alloc::Global;
use std::process::Abort;
use std::test::Fail;

// This many words, of which 32 are slots.
fn shape(words: u32) -> Conf {
    Conf {
        words,
        slots: 32,
        ..Conf::usual()
    }
}

// The worker, its mask, the key, the request, and the reply: whether it was done, or found.
type Row = (u32, u64, u8, Act, bool);

fn is_yes(reply: &Reply) -> bool {
    match reply {
        Reply::Flag(done) => *done,
        Reply::Found(_) => true,
        _ => false,
    }
}

fn play(rt: &impl Abort, alloc: Global, table: &mut Table, rows: &[Row]) -> Result<(), Fail> {
    for (worker, mask, name, act, yes) in rows {
        let event = Event {
            worker: *worker,
            mask: *mask,
            t: 100,
        };
        let request = request_of(rt, alloc, *name, *act)?;
        let reply = table.ask(rt, event, &request)?;
        assert_eq!(rt; is_yes(&reply), *yes);
    }
    Ok(())
}

// A removed row keeps its block in the events whose mask has its copier. In one whose mask has not,
// the block is freed.
#[test]
fn keeps_what_is_copied(rt: HostRuntime) -> Result<(), Fail> {
    const HELD: [Row; 4] = [
        (0, 0, 1, Act::Text(2_000, 0), true),
        (1, 0, 1, Act::Fetch, true),
        (0, 2, 1, Act::Delete, true),
        (0, 2, 2, Act::Text(3_728, 0), false),
    ];
    const FREE: [Row; 1] = [(0, 0, 2, Act::Text(3_728, 0), true)];
    let alloc = rt.alloc();
    let mut table = Table::new(&rt, alloc, &shape(512))?;
    play(&rt, alloc, &mut table, &HELD)?;
    assert_eq!(rt; table.removed(&rt)?, 1);
    play(&rt, alloc, &mut table, &FREE)?;
    assert_eq!(rt; table.removed(&rt)?, 0);
    Ok(())
}

// A row of a copier that a walk deletes is held too.
#[test]
fn keeps_what_a_walk_deletes(rt: HostRuntime) -> Result<(), Fail> {
    const ROWS: [Row; 4] = [
        (0, 0, 1, Act::Text(20, 0), true),
        (0, 0, 2, Act::Text(20, 0), true),
        (0, 0, 3, Act::Put(5, 0), true),
        (1, 0, 2, Act::Fetch, true),
    ];
    let alloc = rt.alloc();
    let mut table = Table::new(&rt, alloc, &shape(4_096))?;
    play(&rt, alloc, &mut table, &ROWS)?;
    let event = Event {
        worker: 2,
        mask: 2,
        t: 100,
    };
    assert_eq!(rt; table.walked(&rt, event)?, (3, 3));
    assert_eq!(rt; table.delete_from(&rt, event, 100)?, 32);
    assert_eq!(rt; table.removed(&rt)?, 1);
    assert_eq!(rt; table.walked(&rt, event)?, (0, 0));
    Ok(())
}

// The row that a copier found was freed, and another row has its key and its place: it is not held.
#[test]
fn holds_no_other_row(rt: HostRuntime) -> Result<(), Fail> {
    const ROWS: [Row; 5] = [
        (0, 0, 1, Act::Text(2_000, 0), true),
        (1, 0, 1, Act::Fetch, true),
        (0, 0, 1, Act::Delete, true),
        (0, 0, 1, Act::Text(2_000, 0), true),
        (0, 2, 1, Act::Delete, true),
    ];
    let alloc = rt.alloc();
    let mut table = Table::new(&rt, alloc, &shape(512))?;
    play(&rt, alloc, &mut table, &ROWS)?;
    assert!(rt; table.is_legal(2, 0, 2));
    assert_eq!(rt; table.removed(&rt)?, 0);
    Ok(())
}

// With this many workers, whether the mask is legal for an event of one. The worker 1 copies a
// string, the worker 2 has fetched a number, and the worker 3 has found nothing.
#[test]
fn tells_which_masks_are_legal(rt: HostRuntime) -> Result<(), Fail> {
    const ROWS: [Row; 5] = [
        (0, 0, 1, Act::Text(20, 0), true),
        (0, 0, 2, Act::Put(5, 0), true),
        (1, 0, 1, Act::Fetch, true),
        (2, 0, 2, Act::Fetch, true),
        (3, 0, 3, Act::Fetch, false),
    ];
    const MASKS: [(u32, u32, u64, bool); 10] = [
        (4, 0, 0, true),
        (4, 1, 0, true),
        (4, 0, 2, true),
        (4, 3, 2, true),
        (4, 1, 2, false),
        (1, 0, 2, false),
        (4, 0, 4, false),
        (4, 0, 8, false),
        (4, 0, 6, false),
        (4, 0, 1 << 63, false),
    ];
    let alloc = rt.alloc();
    let mut table = Table::new(&rt, alloc, &shape(4_096))?;
    play(&rt, alloc, &mut table, &ROWS)?;
    for (workers, worker, mask, legal) in MASKS {
        assert_eq!(rt; table.is_legal(workers, worker, mask), legal);
    }
    play(&rt, alloc, &mut table, &[(1, 0, 1, Act::Exists, true)])?;
    assert!(rt; !table.is_legal(4, 0, 2));
    Ok(())
}
