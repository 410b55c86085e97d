//! Scripts that are generated from a number.

use crate::asked::{Asked, Row, expect_script};
use script_read::generate;
use std::alloc::Global;
use std::process::Abort;
use std::test::Fail;

// A seed, how many workers and calls, and the calls of each worker.
type Case = (u64, u32, u32, &'static [&'static [Row]]);

fn expect_workers(rt: &impl Abort, alloc: Global, case: Case) -> Result<(), Fail> {
    let (seed, workers, calls, rows) = case;
    assert!(rt; workers > 0);
    assert!(rt; workers <= 64);
    assert!(rt; calls <= 1_000_000);
    let scripts = generate(alloc, seed, workers, calls)?;
    assert_eq!(rt; scripts.len() as usize, rows.len());
    for worker in 0..scripts.len() {
        assert!(rt; (worker as usize) < rows.len());
        expect_script(rt, alloc, scripts.at(worker), rows[worker as usize])?;
    }
    Ok(())
}

#[test]
fn scripts_of_a_seed(rt: HostRuntime) -> Result<(), Fail> {
    const FIRST: &[Row] = &[
        (
            0,
            Asked::Store(
                b"p0.7",
                b"s:57:\"xxxxxxxxxxxxxxxxxxxxxxxxxxxxxxxxxxxxxxxxxxxxxxxxxxxxxxxxx\";",
                0,
                false,
            ),
            1,
        ),
        (0, Asked::Inc(b"c7", 25, 0), 1),
        (0, Asked::Fetch(b"p2.12"), 1),
        (0, Asked::Fetch(b"p0.4"), 1),
    ];
    const SECOND: &[Row] = &[
        (0, Asked::Fetch(b"p0.13"), 1),
        (0, Asked::Fetch(b"p2.4"), 1),
        (0, Asked::Fetch(b"p0.11"), 1),
        (0, Asked::Inc(b"c0", 72, 0), 1),
    ];
    const THIRD: &[Row] = &[
        (0, Asked::Inc(b"c2", 36, 0), 1),
        (0, Asked::Fetch(b"p0.8"), 1),
        (0, Asked::Fetch(b"p1.10"), 1),
        (0, Asked::Fetch(b"p1.13"), 1),
    ];
    // The worker after the last seed begins at 0.
    const LAST: &[Row] = &[
        (0, Asked::Fetch(b"p0.10"), 1),
        (0, Asked::Inc(b"c5", 85, 0), 1),
    ];
    const BEHIND: &[Row] = &[
        (0, Asked::Inc(b"c7", 93, 0), 1),
        (0, Asked::Fetch(b"p0.2"), 1),
    ];
    const CASES: &[Case] = &[
        (0, 1, 0, &[&[]]),
        (0, 1, 1, &[&[(0, Asked::Inc(b"c7", 93, 0), 1)]]),
        (7, 3, 4, &[FIRST, SECOND, THIRD]),
        (u64::MAX, 2, 2, &[LAST, BEHIND]),
    ];
    for case in CASES {
        expect_workers(&rt, rt.alloc(), *case)?;
    }
    Ok(())
}
