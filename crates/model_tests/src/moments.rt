//! The moments of calls: that of their line, and the start of their request.

use crate::faults::{Fault, all_refused};
use apcu_model::Clock;
use notation::Reason;
use script_read::{Script, read_scripts};
use std::alloc::Global;
use std::process::Abort;
use std::test::Fail;

// The moment of a call, and the start of its request.
type Moment = (u64, u64);

// A text, and for each of its scripts the moments of the calls.
type Case = (&'static [u8], &'static [&'static [Moment]]);

fn expect_script(rt: &impl Abort, script: &Script, moments: &[Moment]) {
    assert_eq!(rt; script.len() as usize, moments.len());
    for i in 0..script.len() {
        assert!(rt; (i as usize) < moments.len());
        let (t, start) = moments[i as usize];
        let step = script.at(i);
        assert_eq!(rt; (step.t, step.start), (t, start));
        assert_eq!(rt; step.moment(Clock::Line), t);
        assert_eq!(rt; step.moment(Clock::Request), start);
    }
}

fn expect_moments(rt: &impl Abort, alloc: Global, case: Case) -> Result<(), Fail> {
    let (text, scripts) = case;
    assert!(rt; text.len() < 1000);
    let read = read_scripts(alloc, text)?;
    assert_eq!(rt; read.len() as usize, scripts.len());
    for worker in 0..read.len() {
        assert!(rt; (worker as usize) < scripts.len());
        expect_script(rt, read.at(worker), scripts[worker as usize]);
    }
    Ok(())
}

#[test]
fn moments_in_any_order(rt: HostRuntime) -> Result<(), Fail> {
    const CASES: &[Case] = &[
        (b"worker\napcu_enabled\n", &[&[(0, 0)]]),
        (b"worker\ntime i:5;\napcu_enabled\n", &[&[(5, 0)]]),
        (b"worker\nrequest i:7;\napcu_enabled\n", &[&[(7, 7)]]),
        (
            b"worker\nrequest i:7;\ntime i:9;\napcu_enabled\napcu_enabled\n",
            &[&[(9, 7), (9, 7)]],
        ),
        (
            b"worker\ntime i:9;\nrequest i:7;\napcu_enabled\n",
            &[&[(7, 7)]],
        ),
        (
            b"worker\nrequest i:7;\nrequest i:3;\ntime i:1;\ntime i:2;\napcu_enabled\n",
            &[&[(2, 3)]],
        ),
        (
            b"worker\napcu_enabled\nrequest i:4;\napcu_enabled\ntime i:6;\napcu_enabled\n\
            request i:999999999999;\napcu_enabled\nrequest i:0;\n",
            &[&[(0, 0), (4, 4), (6, 4), (999999999999, 999999999999)]],
        ),
        // Each script begins at 0 again.
        (
            b"worker\nrequest i:7;\ntime i:9;\napcu_enabled\nworker\napcu_enabled\n\
            time i:1;\napcu_enabled\nworker\nrequest i:2;\n",
            &[&[(9, 7)], &[(0, 0), (1, 0)], &[]],
        ),
    ];
    for case in CASES {
        expect_moments(&rt, rt.alloc(), *case)?;
    }
    Ok(())
}

#[test]
fn requests_at_fault(rt: HostRuntime) {
    const FAULTS: &[Fault] = &[
        (b"request i:1;\n", 0, Reason::Line),
        (b"worker\nrequests i:1;\n", 7, Reason::Line),
        (b"worker\nRequest i:1;\n", 7, Reason::Line),
        (b"worker\nrequest", 14, Reason::End),
        (b"worker\nrequest ", 15, Reason::End),
        (b"worker\nrequest i:1;", 19, Reason::End),
        (b"worker\nrequest\n", 14, Reason::Argument),
        (b"worker\nrequest:i:1;\n", 14, Reason::Separator),
        (b"worker\nrequest i:1;x\n", 19, Reason::Separator),
        (b"worker\nrequest i:-1;\n", 15, Reason::Argument),
        (b"worker\nrequest i:1000000000000;\n", 15, Reason::Argument),
        (b"worker\nrequest s:1:\"1\";\n", 15, Reason::Argument),
        (b"worker\nrequest N;\n", 15, Reason::Argument),
        (b"worker\nrequest i:1; i:2;\n", 20, Reason::Argument),
    ];
    all_refused(&rt, rt.alloc(), FAULTS);
}
