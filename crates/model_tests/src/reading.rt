//! Scripts that are read, and the most that they may hold.

use crate::asked::{Asked, Row, expect_steps};
use crate::faults::refused;
use notation::{ByteOut, Reason};
use php_graph::Bytes;
use script_read::{Call, Script, Scripts, Step, read_scripts};
use std::alloc::Global;
use std::test::Fail;

#[test]
fn calls_in_all_their_forms(rt: HostRuntime) -> Result<(), Fail> {
    let text = b"worker\n\
        apcu_store s:1:\"a\"; i:5;\n\
        apcu_add s:1:\"a\"; N; i:4294967295;\n\
        time i:100;\n\
        apcu_store a:2:{i:-7;i:1;s:1:\"b\";a:1:{i:0;R:3;}}\n\
        apcu_store a:1:{s:0:\"\";O:1:\"A\":1:{s:1:\"x\";r:2;}} N;\n\
        time i:999999999999;\n\
        apcu_add a:0:{} N; i:5;\n\
        time i:0;\n\
        apcu_fetch s:1:\"a\";\n\
        apcu_fetch a:2:{i:0;s:1:\"a\";i:1;s:1:\"5\";}\n\
        apcu_fetch a:0:{}\n\
        apcu_exists s:0:\"\";\n\
        apcu_exists a:1:{s:1:\"x\";s:1:\"a\";}\n\
        apcu_delete s:1:\"a\";\n\
        apcu_delete a:1:{i:9;s:1:\"a\";}\n\
        apcu_inc s:1:\"n\";\n\
        apcu_inc s:1:\"n\"; i:-3;\n\
        apcu_dec s:1:\"n\"; i:4; i:60;\n\
        apcu_dec s:1:\"n\"; i:-9223372036854775808;\n\
        apcu_cas s:1:\"n\"; i:5; i:-6;\n\
        apcu_clear_cache\n\
        time i:7;\n\
        apcu_enabled\n";
    const ROWS: &[Row] = &[
        (0, Asked::Store(b"a", b"i:5;", 0, false), 1),
        (0, Asked::Store(b"a", b"N;", 4294967295, true), 1),
        (
            100,
            Asked::StoreMany(&[(b"-7", b"i:1;"), (b"b", b"a:1:{i:0;R:1;}")], 0, false),
            2,
        ),
        (
            100,
            Asked::StoreMany(&[(b"", b"O:1:\"A\":1:{s:1:\"x\";r:1;}")], 0, false),
            1,
        ),
        (999999999999, Asked::StoreMany(&[], 5, true), 0),
        (0, Asked::Fetch(b"a"), 1),
        (0, Asked::FetchMany(&[b"a", b"5"]), 2),
        (0, Asked::FetchMany(&[]), 0),
        (0, Asked::Exists(b""), 1),
        (0, Asked::ExistsMany(&[b"a"]), 1),
        (0, Asked::Delete(b"a"), 1),
        (0, Asked::DeleteMany(&[b"a"]), 1),
        (0, Asked::Inc(b"n", 1, 0), 1),
        (0, Asked::Inc(b"n", -3, 0), 1),
        (0, Asked::Inc(b"n", -4, 60), 1),
        (0, Asked::Inc(b"n", i64::MIN, 0), 1),
        (0, Asked::Cas(b"n", 5, -6), 1),
        (0, Asked::Clear, 1),
        (7, Asked::Enabled, 0),
    ];
    expect_steps(&rt, rt.alloc(), text, ROWS)
}

#[test]
fn entries_and_information(rt: HostRuntime) -> Result<(), Fail> {
    let text = b"worker\n\
        time i:100;\n\
        apcu_entry s:1:\"k\"; (i:7;)\n\
        apcu_entry s:2:\"k1\"; (apcu_entry s:2:\"k2\"; (i:7;)) i:4294967295;\n\
        apcu_entry s:0:\"\"; (apcu_entry s:1:\"b\"; (a:1:{i:0;R:1;}) i:60;)\n\
        apcu_entry s:1:\"k\"; (apcu_entry s:1:\"k\"; (apcu_entry s:1:\"k\"; \
        (s:1:\")\";) i:0;) i:1;) i:2;\n\
        apcu_key_info s:1:\"x\";\n\
        apcu_cache_info\n\
        apcu_cache_info b:0;\n\
        apcu_cache_info b:1;\n\
        apcu_sma_info\n\
        apcu_sma_info b:0;\n\
        apcu_sma_info b:1;\n";
    const ROWS: &[Row] = &[
        (100, Asked::Entry(&[(b"k", 0)], b"i:7;"), 1),
        (
            100,
            Asked::Entry(&[(b"k1", 4294967295), (b"k2", 0)], b"i:7;"),
            1,
        ),
        (
            100,
            Asked::Entry(&[(b"", 0), (b"b", 60)], b"a:1:{i:0;R:1;}"),
            1,
        ),
        (
            100,
            Asked::Entry(&[(b"k", 2), (b"k", 1), (b"k", 0)], b"s:1:\")\";"),
            1,
        ),
        (100, Asked::KeyInfo(b"x"), 1),
        (100, Asked::CacheInfo(false), 1),
        (100, Asked::CacheInfo(false), 1),
        (100, Asked::CacheInfo(true), 1),
        (100, Asked::SmaInfo(false), 1),
        (100, Asked::SmaInfo(false), 1),
        (100, Asked::SmaInfo(true), 1),
    ];
    expect_steps(&rt, rt.alloc(), text, ROWS)
}

// A line `apcu_entry` of `levels` nested entries.
fn nested(alloc: Global, levels: u32) -> Result<ByteOut, Fail> {
    let mut text = ByteOut::new(alloc);
    text.push(b"worker\napcu_entry s:1:\"k\"; ")?;
    for _ in 1..levels {
        text.push(b"(apcu_entry s:1:\"k\"; ")?;
    }
    text.push(b"(i:1;)")?;
    for _ in 1..levels {
        text.push(b")")?;
    }
    text.push(b"\n")?;
    Ok(text)
}

#[test]
fn as_many_levels_as_may_be(rt: HostRuntime) -> Result<(), Fail> {
    let text = nested(rt.alloc(), 8)?;
    assert!(rt; text.as_slice().len() < 1000);
    let scripts = read_scripts(rt.alloc(), text.as_slice())?;
    assert!(rt; scripts.len() == 1);
    assert!(rt; scripts.at(0).len() == 1);
    match &scripts.at(0).at(0).call {
        Call::Entry(generator) => assert_eq!(rt; generator.entries(), 8),
        _ => assert!(rt; false),
    }
    let text = nested(rt.alloc(), 9)?;
    refused(&rt, rt.alloc(), text.as_slice(), 174, Reason::Generator);
    Ok(())
}

#[test]
fn no_scripts(rt: HostRuntime) -> Result<(), Fail> {
    let mut none = read_scripts(rt.alloc(), b"")?;
    assert_eq!(rt; none.len(), 0);
    assert!(rt; none.pop().is_none());
    let mut one = read_scripts(rt.alloc(), b"worker\n")?;
    match one.pop() {
        Some(script) => assert_eq!(rt; script.len(), 0),
        None => assert!(rt; false),
    }
    Ok(())
}

// This many lines `worker`, the first of which has a call.
fn workers(alloc: Global, count: u32) -> Result<ByteOut, Fail> {
    let mut text = ByteOut::new(alloc);
    text.push(b"worker\napcu_enabled\n")?;
    for _ in 1..count {
        text.push(b"worker\n")?;
    }
    Ok(text)
}

#[test]
fn as_many_workers_as_may_be(rt: HostRuntime) -> Result<(), Fail> {
    let text = workers(rt.alloc(), 64)?;
    assert!(rt; text.as_slice().len() < 1000);
    let scripts = read_scripts(rt.alloc(), text.as_slice())?;
    assert!(rt; scripts.len() == 64);
    assert_eq!(rt; scripts.at(0).len(), 1);
    assert_eq!(rt; scripts.at(63).len(), 0);
    let text = workers(rt.alloc(), 65)?;
    refused(&rt, rt.alloc(), text.as_slice(), 461, Reason::Workers);
    Ok(())
}

#[test]
fn scripts_are_made(rt: HostRuntime) -> Result<(), Fail> {
    let mut script = Script::new(rt.alloc());
    assert!(rt; script.is_empty());
    let key = Bytes::of(rt.alloc(), b"k")?;
    script.push(Step {
        t: 5,
        start: 3,
        call: Call::FetchOne(key),
    })?;
    assert_eq!(rt; script.len(), 1);
    assert_eq!(rt; script.at(0).t, 5);
    assert_eq!(rt; script.at(0).start, 3);
    let scripts = Scripts::new(rt.alloc());
    assert!(rt; scripts.is_empty());
    Ok(())
}
