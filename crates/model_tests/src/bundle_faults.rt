//! Bundles that are refused: the place of the first fault, and the reason.

use crate::faults::{Fault, expect_fault};
use notation::Reason;
use preload_set::{read_bundle, read_front};
use std::alloc::Global;
use std::process::Abort;

fn all_refused<R: Abort>(rt: &R, alloc: Global, faults: &[Fault]) {
    for (bytes, place, reason) in faults {
        assert!(rt; bytes.len() < 1000);
        expect_fault(rt, read_bundle(alloc, bytes).err(), *place, *reason);
    }
}

#[test]
fn ends_too_early(rt: HostRuntime) {
    const FAULTS: &[Fault] = &[
        (b"s", 1, Reason::End),
        (b"s:1", 3, Reason::End),
        (b"s:1:\"a", 2, Reason::Length),
        (b"s:1:\"a\"", 7, Reason::End),
        (b"s:1:\"a\";", 8, Reason::End),
        (b"s:1:\"a\"; ", 9, Reason::End),
        (b"s:1:\"a\"; i:5", 12, Reason::End),
        (b"s:1:\"a\"; a:1:{i:0;", 18, Reason::End),
        (b"s:1:\"a\"; i:5;", 13, Reason::End),
        (b"s:1:\"a\"; i:5;\ns:1:\"b\"; N;", 25, Reason::End),
    ];
    all_refused(&rt, rt.alloc(), FAULTS);
}

#[test]
fn bundle_keys_at_fault(rt: HostRuntime) {
    const FAULTS: &[Fault] = &[
        (b"i:5; N;\n", 0, Reason::Argument),
        (b"N; N;\n", 0, Reason::Argument),
        (b"a:1:{i:0;s:1:\"a\";} N;\n", 0, Reason::Argument),
        (b"O:1:\"A\":0:{} N;\n", 0, Reason::Argument),
        (b"i:5;N;\n", 0, Reason::Argument),
        (b"s:1:\"a\"; i:5;\ni:5; N;\n", 14, Reason::Argument),
        // A value's own fault comes first.
        (b"i:05; N;\n", 2, Reason::Number),
        (b"s:01:\"a\"; N;\n", 2, Reason::Number),
        (b"\n", 0, Reason::Tag),
        (b" s:1:\"a\"; N;\n", 0, Reason::Tag),
        (b"s:1:\"a\"; i:5;\n\n", 14, Reason::Tag),
        (b"s:1:\"a\"; i:5;\nworker\n", 14, Reason::Tag),
    ];
    all_refused(&rt, rt.alloc(), FAULTS);
}

#[test]
fn bundle_values_at_fault(rt: HostRuntime) {
    const FAULTS: &[Fault] = &[
        (b"s:1:\"a\"; i:05;\n", 11, Reason::Number),
        (b"s:1:\"a\";  i:5;\n", 9, Reason::Tag),
        (b"s:1:\"a\"; \n", 9, Reason::Tag),
        (b"s:1:\"a\"; d:1.5;\n", 9, Reason::Tag),
        (b"s:1:\"a\"; a:1:{i:0;r:1;}\n", 20, Reason::Target),
        (b"s:1:\"a\"; i:5;\ns:1:\"b\"; \n", 23, Reason::Tag),
        (b"s:1:\"a\"; i:5;\ns:1:\"b\"; i:05;\n", 25, Reason::Number),
    ];
    all_refused(&rt, rt.alloc(), FAULTS);
}

#[test]
fn separators_at_fault(rt: HostRuntime) {
    const FAULTS: &[Fault] = &[
        (b"s:1:\"a\";i:5;\n", 8, Reason::Separator),
        (b"s:1:\"a\";\ti:5;\n", 8, Reason::Separator),
        (b"s:1:\"a\";\n", 8, Reason::Separator),
        (b"s:1:\"a\"; i:5;\r\n", 13, Reason::Separator),
        (b"s:1:\"a\"; i:5; \n", 13, Reason::Separator),
        (b"s:1:\"a\"; i:5; i:60;\n", 13, Reason::Separator),
        (b"s:1:\"a\"; i:5;s:1:\"b\"; i:5;\n", 13, Reason::Separator),
    ];
    all_refused(&rt, rt.alloc(), FAULTS);
}

// An input, how many bytes of it should be a bundle, the place of the first fault, and the reason.
type Front = (&'static [u8], u64, u64, Reason);

#[test]
fn fronts_at_fault(rt: HostRuntime) {
    const FAULTS: &[Front] = &[
        (b"", 1, 0, Reason::End),
        (b"s:1:\"a\"; i:5;\n", 15, 14, Reason::End),
        // An input that is too short is reported before any other fault.
        (b"i:05;", 67_108_864, 5, Reason::End),
        (b"N;", u64::MAX, 2, Reason::End),
        (b"s:1:\"a\"; i:5;\nworker\n", 13, 13, Reason::End),
        (b"s:1:\"a\"; i:5;\nworker\n", 15, 14, Reason::Tag),
        (b"s:1:\"a\"; i:05;\nworker\n", 15, 11, Reason::Number),
    ];
    for (input, len, place, reason) in FAULTS {
        assert!(rt; input.len() < 1000);
        expect_fault(
            &rt,
            read_front(rt.alloc(), input, *len).err(),
            *place,
            *reason,
        );
    }
}
