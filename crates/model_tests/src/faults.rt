//! Texts that are refused: the place of the first fault, and the reason.

use notation::Reason;
use script_read::{ScriptFault, read_scripts};
use std::alloc::Global;
use std::process::Abort;

pub(crate) fn expect_fault(
    rt: &impl Abort,
    fault: Option<ScriptFault>,
    place: u64,
    reason: Reason,
) {
    match fault {
        Some(
            ScriptFault::Bad {
                place: at,
                reason: why,
            },
        ) => {
            assert_eq!(rt; at, place);
            assert_eq!(rt; why, reason);
        }
        _ => assert!(rt; false),
    }
}

pub(crate) fn refused(rt: &impl Abort, alloc: Global, text: &[u8], place: u64, reason: Reason) {
    assert!(rt; text.len() < 1000);
    expect_fault(rt, read_scripts(alloc, text).err(), place, reason);
}

// A text, the place of its first fault, and the reason.
pub(crate) type Fault = (&'static [u8], u64, Reason);

pub(crate) fn all_refused(rt: &impl Abort, alloc: Global, faults: &[Fault]) {
    for fault in faults {
        refused(rt, alloc, fault.0, fault.1, fault.2);
    }
}

#[test]
fn values_at_fault(rt: HostRuntime) {
    const FAULTS: &[Fault] = &[
        (b"worker\napcu_store s:1:\"a\"; i:05;\n", 29, Reason::Number),
        (
            b"worker\napcu_store s:1:\"a\"; s:3:\"ab\";\n",
            29,
            Reason::Length,
        ),
        (b"worker\napcu_store s:1:\"a\"; d:1.5;\n", 27, Reason::Tag),
        (
            b"worker\napcu_store s:1:\"a\"; a:1:{i:0;r:1;}\n",
            38,
            Reason::Target,
        ),
    ];
    all_refused(&rt, rt.alloc(), FAULTS);
}

#[test]
fn lines_at_fault(rt: HostRuntime) {
    const FAULTS: &[Fault] = &[
        (b"worker", 6, Reason::End),
        (b"worker ", 7, Reason::End),
        (b"worker N;\n", 7, Reason::Argument),
        (b"worker:\n", 6, Reason::Separator),
        (b"workers\n", 0, Reason::Line),
        (b"\n", 0, Reason::Line),
        (b"apcu_fetch s:1:\"a\";\n", 0, Reason::Line),
        (b"time i:1;\n", 0, Reason::Line),
        (b"apcu_entry s:1:\"a\";\n", 0, Reason::Line),
        (b"APCUIterator N;\n", 0, Reason::Line),
        (b"worker\nworker N;\n", 14, Reason::Argument),
        (b"worker\nworker\ntime N;\n", 19, Reason::Argument),
        (b"worker\n\n", 7, Reason::Line),
        (b"worker\napcu_foo\n", 7, Reason::Line),
        (b"worker\nAPCUIterator_\n", 7, Reason::Line),
        (b"worker\ntime", 11, Reason::End),
        (b"worker\ntime ", 12, Reason::End),
        (b"worker\ntime i:1;", 16, Reason::End),
        (b"worker\napcu_clear_cache", 23, Reason::End),
        (b"worker\napcu_clear_cache ", 24, Reason::End),
        (b"worker\napcu_store s:1:\"a\"; i:1;", 31, Reason::End),
        (b"worker\napcu_store a:0:{} N; i:1;", 32, Reason::End),
        (b"worker\ntime:i:1;\n", 11, Reason::Separator),
        (b"worker\ntime i:1;x\n", 16, Reason::Separator),
        (
            b"worker\napcu_fetch s:1:\"a\"; i:1;\n",
            27,
            Reason::Argument,
        ),
        (b"worker\napcu_clear_cache N;\n", 24, Reason::Argument),
        (b"worker\napcu_enabled  \n", 20, Reason::Argument),
        (
            b"worker\napcu_store s:1:\"a\"; i:1; i:1; i:1;\n",
            37,
            Reason::Argument,
        ),
        (b"worker\napcu_inc s:1:\"n\"; i:1;", 29, Reason::End),
        (
            b"worker\napcu_dec s:1:\"n\"; i:1; i:1; i:1;\n",
            35,
            Reason::Argument,
        ),
        (
            b"worker\napcu_cas s:1:\"n\"; i:1; i:2; i:3;\n",
            35,
            Reason::Argument,
        ),
        (
            b"worker\napcu_store a:0:{} N; i:1; i:1;\n",
            33,
            Reason::Argument,
        ),
        (
            b"worker\napcu_store s:1:\"a\";\ti:1;\n",
            26,
            Reason::Separator,
        ),
    ];
    all_refused(&rt, rt.alloc(), FAULTS);
}

#[test]
fn arguments_at_fault(rt: HostRuntime) {
    const FAULTS: &[Fault] = &[
        (b"worker\ntime\n", 11, Reason::Argument),
        (b"worker\ntime i:-1;\n", 12, Reason::Argument),
        (b"worker\ntime i:1000000000000;\n", 12, Reason::Argument),
        (b"worker\ntime s:1:\"1\";\n", 12, Reason::Argument),
        (b"worker\napcu_fetch\n", 17, Reason::Argument),
        (b"worker\napcu_fetch \n", 18, Reason::Tag),
        (b"worker\napcu_store s:1:\"a\"; \n", 27, Reason::Tag),
        (b"worker\napcu_fetch i:1;\n", 18, Reason::Argument),
        (
            b"worker\napcu_exists a:1:{i:0;i:1;}\n",
            19,
            Reason::Argument,
        ),
        (
            b"worker\napcu_delete a:2:{i:0;s:1:\"a\";i:1;R:2;}\n",
            19,
            Reason::Argument,
        ),
        (
            b"worker\napcu_delete O:1:\"A\":0:{}\n",
            19,
            Reason::Argument,
        ),
        (b"worker\napcu_inc\n", 15, Reason::Argument),
        (b"worker\napcu_inc i:1;\n", 16, Reason::Argument),
        (
            b"worker\napcu_inc a:1:{i:0;s:1:\"n\";}\n",
            16,
            Reason::Argument,
        ),
        (b"worker\napcu_inc s:1:\"n\"; N;\n", 25, Reason::Argument),
        (
            b"worker\napcu_dec s:1:\"n\"; i:1; i:-1;\n",
            30,
            Reason::Argument,
        ),
        (b"worker\napcu_cas s:1:\"n\"; i:1;\n", 29, Reason::Argument),
        (
            b"worker\napcu_cas s:1:\"n\"; i:1; s:1:\"2\";\n",
            30,
            Reason::Argument,
        ),
        (b"worker\napcu_store N; N;\n", 18, Reason::Argument),
        (b"worker\napcu_store s:1:\"a\";\n", 26, Reason::Argument),
        (
            b"worker\napcu_store s:1:\"a\"; N; N;\n",
            30,
            Reason::Argument,
        ),
        (
            b"worker\napcu_add s:1:\"a\"; N; i:4294967296;\n",
            28,
            Reason::Argument,
        ),
        (
            b"worker\napcu_add s:1:\"a\"; N; i:-1;\n",
            28,
            Reason::Argument,
        ),
        (b"worker\napcu_store a:1:{i:0;R:1;}\n", 18, Reason::Argument),
        (
            b"worker\napcu_store a:2:{i:0;O:1:\"A\":0:{}i:1;r:2;}\n",
            18,
            Reason::Argument,
        ),
        (
            b"worker\napcu_store a:2:{i:0;i:1;i:1;a:1:{i:0;R:2;}}\n",
            18,
            Reason::Argument,
        ),
        (b"worker\napcu_store a:0:{} i:1;\n", 25, Reason::Argument),
        (b"worker\napcu_store a:0:{} N; N;\n", 28, Reason::Argument),
    ];
    all_refused(&rt, rt.alloc(), FAULTS);
}

#[test]
fn entries_at_fault(rt: HostRuntime) {
    const FAULTS: &[Fault] = &[
        (b"worker\napcu_entry\n", 17, Reason::Argument),
        (b"worker\napcu_entry i:1; (i:1;)\n", 18, Reason::Argument),
        (b"worker\napcu_entry s:1:\"k\";\n", 26, Reason::Argument),
        (b"worker\napcu_entry s:1:\"k\"; ", 27, Reason::End),
        (
            b"worker\napcu_entry s:1:\"k\"; i:1;\n",
            27,
            Reason::Argument,
        ),
        (b"worker\napcu_entry s:1:\"k\"; (", 28, Reason::End),
        (b"worker\napcu_entry s:1:\"k\"; ()\n", 28, Reason::Tag),
        (
            b"worker\napcu_entry s:1:\"k\"; (i:05;)\n",
            30,
            Reason::Number,
        ),
        (b"worker\napcu_entry s:1:\"k\"; (i:1;", 32, Reason::End),
        (
            b"worker\napcu_entry s:1:\"k\"; (i:1;\n",
            32,
            Reason::Separator,
        ),
        (
            b"worker\napcu_entry s:1:\"k\"; (i:1; )\n",
            32,
            Reason::Separator,
        ),
        (b"worker\napcu_entry s:1:\"k\"; (i:1;)", 33, Reason::End),
        (
            b"worker\napcu_entry s:1:\"k\"; (i:1;)x\n",
            33,
            Reason::Separator,
        ),
        (
            b"worker\napcu_entry s:1:\"k\"; (i:1;) N;\n",
            34,
            Reason::Argument,
        ),
        (
            b"worker\napcu_entry s:1:\"k\"; (i:1;) i:-1;\n",
            34,
            Reason::Argument,
        ),
        (
            b"worker\napcu_entry s:1:\"k\"; (i:1;) i:1; i:1;\n",
            39,
            Reason::Argument,
        ),
        (
            b"worker\napcu_entry s:1:\"k\"; (apcu_entry)\n",
            29,
            Reason::Mark,
        ),
        (
            b"worker\napcu_entry s:1:\"k\"; (apcu_entry i:1; (i:1;))\n",
            39,
            Reason::Argument,
        ),
        (
            b"worker\napcu_entry s:1:\"k\"; (apcu_entry s:1:\"j\";\n",
            47,
            Reason::Separator,
        ),
        (
            b"worker\napcu_entry s:1:\"k\"; (apcu_entry s:1:\"j\";)\n",
            47,
            Reason::Separator,
        ),
        (
            b"worker\napcu_entry s:1:\"k\"; (apcu_entry s:1:\"j\";",
            47,
            Reason::End,
        ),
        (
            b"worker\napcu_entry s:1:\"k\"; (apcu_entry s:1:\"j\"; ",
            48,
            Reason::End,
        ),
        (
            b"worker\napcu_entry s:1:\"k\"; (apcu_entry s:1:\"j\"; \n",
            48,
            Reason::Argument,
        ),
        (
            b"worker\napcu_entry s:1:\"k\"; (apcu_entry s:1:\"j\"; i:1;)\n",
            48,
            Reason::Argument,
        ),
        (
            b"worker\napcu_entry s:1:\"k\"; (apcu_entry s:1:\"j\"; (i:1;)",
            54,
            Reason::End,
        ),
        (
            b"worker\napcu_entry s:1:\"k\"; (apcu_entry s:1:\"j\"; (i:1;)\n",
            54,
            Reason::Separator,
        ),
        (
            b"worker\napcu_entry s:1:\"k\"; (apcu_entry s:1:\"j\"; (i:1;) i:4294967296;)\n",
            55,
            Reason::Argument,
        ),
        (
            b"worker\napcu_entry s:1:\"k\"; (apcu_entry s:1:\"j\"; (i:1;) i:5; )\n",
            59,
            Reason::Separator,
        ),
    ];
    all_refused(&rt, rt.alloc(), FAULTS);
}

#[test]
fn information_at_fault(rt: HostRuntime) {
    const FAULTS: &[Fault] = &[
        (b"worker\napcu_key_info\n", 20, Reason::Argument),
        (b"worker\napcu_key_info i:1;\n", 21, Reason::Argument),
        (
            b"worker\napcu_key_info a:1:{i:0;s:1:\"a\";}\n",
            21,
            Reason::Argument,
        ),
        (
            b"worker\napcu_key_info s:1:\"a\"; N;\n",
            30,
            Reason::Argument,
        ),
        (b"worker\napcu_cache_info", 22, Reason::End),
        (b"worker\napcu_cache_info i:1;\n", 23, Reason::Argument),
        (b"worker\napcu_cache_info b:2;\n", 25, Reason::Number),
        (b"worker\napcu_cache_info b:1;x\n", 27, Reason::Separator),
        (b"worker\napcu_cache_info b:1; b:0;\n", 28, Reason::Argument),
        (b"worker\napcu_sma_info ", 21, Reason::End),
        (b"worker\napcu_sma_info N;\n", 21, Reason::Argument),
        (b"worker\napcu_sma_info s:1:\"1\";\n", 21, Reason::Argument),
    ];
    all_refused(&rt, rt.alloc(), FAULTS);
}
