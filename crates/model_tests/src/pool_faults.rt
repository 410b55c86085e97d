//! Lines of pools that are refused: the place of the first fault.

use crate::faults::refused;
use notation::Reason;
use std::alloc::Global;
use std::process::Abort;

// A text, and the place of its first fault, which is an argument.
type Fault = (&'static [u8], u64);

fn all_refused(rt: &impl Abort, alloc: Global, faults: &[Fault]) {
    for fault in faults {
        refused(rt, alloc, fault.0, fault.1, Reason::Argument);
    }
}

#[test]
fn arguments_that_are_missing(rt: HostRuntime) {
    const FAULTS: &[Fault] = &[
        (b"worker\npool_get\n", 15),
        (b"worker\npool_set\n", 15),
        (b"worker\npool_delete\n", 18),
        (b"worker\npool_clear\n", 17),
        (b"worker\npool_get_multiple\n", 24),
        (b"worker\npool_set_multiple\n", 24),
        (b"worker\npool_delete_multiple\n", 27),
        (b"worker\npool_has\n", 15),
        (b"worker\npool_get s:1:\"p\";\n", 24),
        (b"worker\npool_set s:1:\"p\";\n", 24),
        (b"worker\npool_set s:1:\"p\"; s:1:\"a\";\n", 33),
        (b"worker\npool_delete s:1:\"p\";\n", 27),
        (b"worker\npool_get_multiple s:1:\"p\";\n", 33),
        (b"worker\npool_set_multiple s:1:\"p\";\n", 33),
        (b"worker\npool_delete_multiple s:1:\"p\";\n", 36),
        (b"worker\npool_has s:1:\"p\";\n", 24),
    ];
    all_refused(&rt, rt.alloc(), FAULTS);
}

#[test]
fn one_argument_too_many(rt: HostRuntime) {
    const FAULTS: &[Fault] = &[
        (b"worker\npool_get s:1:\"p\"; s:1:\"a\"; N; N;\n", 37),
        (b"worker\npool_set s:1:\"p\"; s:1:\"a\"; i:1; i:1; N;\n", 44),
        (b"worker\npool_delete s:1:\"p\"; s:1:\"a\"; N;\n", 37),
        (b"worker\npool_clear s:1:\"p\"; N;\n", 27),
        (b"worker\npool_get_multiple s:1:\"p\"; a:0:{} N; N;\n", 44),
        (b"worker\npool_set_multiple s:1:\"p\"; a:0:{} N; N;\n", 44),
        (b"worker\npool_delete_multiple s:1:\"p\"; a:0:{} N;\n", 44),
        (b"worker\npool_has s:1:\"p\"; s:1:\"a\"; N;\n", 34),
    ];
    all_refused(&rt, rt.alloc(), FAULTS);
}

#[test]
fn names_at_fault(rt: HostRuntime) {
    const FAULTS: &[Fault] = &[
        (b"worker\npool_get s:0:\"\"; s:1:\"a\";\n", 16),
        (b"worker\npool_set s:3:\"p-q\"; s:1:\"a\"; i:1;\n", 16),
        (b"worker\npool_delete i:1; s:1:\"a\";\n", 19),
        (b"worker\npool_clear s:3:\"{p}\";\n", 18),
        (b"worker\npool_get_multiple s:2:\"p \"; a:0:{}\n", 25),
        (b"worker\npool_set_multiple N; a:0:{}\n", 25),
        (
            b"worker\npool_delete_multiple s:2:\"\xc3\xa4\"; a:0:{}\n",
            28,
        ),
        (b"worker\npool_has a:1:{i:0;s:1:\"p\";} s:1:\"a\";\n", 16),
        (
            b"worker\npool_clear s:65:\"ppppppppppppppppppppppppppppppppppppppppppppppppppppppppppppppppp\";\n",
            18,
        ),
    ];
    all_refused(&rt, rt.alloc(), FAULTS);
}

#[test]
fn pool_keys_at_fault(rt: HostRuntime) {
    const FAULTS: &[Fault] = &[
        (b"worker\npool_get s:1:\"p\"; s:0:\"\";\n", 25),
        (b"worker\npool_set s:1:\"p\"; s:3:\"{p}\"; i:1;\n", 25),
        (b"worker\npool_delete s:1:\"p\"; i:1;\n", 28),
        (b"worker\npool_has s:1:\"p\"; s:3:\"a:b\";\n", 25),
        (b"worker\npool_get s:1:\"p\"; a:1:{i:0;s:1:\"a\";}\n", 25),
        (b"worker\npool_get_multiple s:1:\"p\"; s:1:\"a\";\n", 34),
        (
            b"worker\npool_get_multiple s:1:\"p\"; a:2:{i:0;s:1:\"a\";i:1;s:1:\"(\";}\n",
            34,
        ),
        (b"worker\npool_get_multiple s:1:\"p\"; a:1:{i:0;i:5;}\n", 34),
        (
            b"worker\npool_delete_multiple s:1:\"p\"; a:1:{i:0;s:0:\"\";}\n",
            37,
        ),
        (
            b"worker\npool_delete_multiple s:1:\"p\"; a:2:{i:0;s:1:\"a\";i:1;R:2;}\n",
            37,
        ),
        (
            b"worker\npool_set_multiple s:1:\"p\"; a:1:{s:1:\"/\";i:1;}\n",
            34,
        ),
        (
            b"worker\npool_set_multiple s:1:\"p\"; a:1:{s:0:\"\";i:1;}\n",
            34,
        ),
        (b"worker\npool_set_multiple s:1:\"p\"; s:1:\"a\";\n", 34),
        (
            b"worker\npool_set_multiple s:1:\"p\"; a:1:{s:1:\"a\";R:1;}\n",
            34,
        ),
    ];
    all_refused(&rt, rt.alloc(), FAULTS);
}

#[test]
fn times_to_live_at_fault(rt: HostRuntime) {
    const FAULTS: &[Fault] = &[
        (
            b"worker\npool_set s:1:\"p\"; s:1:\"a\"; i:5; i:4294967296;\n",
            39,
        ),
        (b"worker\npool_set s:1:\"p\"; s:1:\"a\"; i:5; b:0;\n", 39),
        (
            b"worker\npool_set s:1:\"p\"; s:1:\"a\"; i:5; s:1:\"1\";\n",
            39,
        ),
        (
            b"worker\npool_set_multiple s:1:\"p\"; a:0:{} i:4294967296;\n",
            41,
        ),
        (b"worker\npool_set_multiple s:1:\"p\"; a:0:{} a:0:{}\n", 41),
    ];
    all_refused(&rt, rt.alloc(), FAULTS);
}
