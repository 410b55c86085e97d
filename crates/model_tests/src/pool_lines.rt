//! Reading pools' lines.

use crate::asked::{are_keys, are_pairs, is_search, is_value};
use script_read::{Call, Script, read_scripts};
use simple_pool::PoolAsk;
use std::alloc::Global;
use std::process::Abort;
use std::test::Fail;

// The call of a line on a pool: values and pairs by their texts.
#[derive(Clone, Copy)]
enum Asked {
    Get(&'static [u8], &'static [u8]),
    Set(&'static [u8], &'static [u8], i64),
    SetPlain(&'static [u8], &'static [u8]),
    Delete(&'static [u8]),
    Clear,
    GetMany(&'static [&'static [u8]], &'static [u8]),
    SetMany(&'static [(&'static [u8], &'static [u8])], i64),
    SetManyPlain(&'static [(&'static [u8], &'static [u8])]),
    DeleteMany(&'static [&'static [u8]]),
    Has(&'static [u8]),
}

// Whether it is this ask, of those of one key, or of none.
fn is_single(alloc: Global, expected: Asked, ask: &PoolAsk) -> Result<bool, Fail> {
    match (expected, ask) {
        (Asked::Get(k, d), PoolAsk::Get(key, default)) => {
            Ok(key.as_slice() == k && is_value(alloc, d, default)?)
        }
        (Asked::Set(k, v, t), PoolAsk::Set(key, value, ttl)) => {
            Ok(key.as_slice() == k && *ttl == t && is_value(alloc, v, value)?)
        }
        (Asked::SetPlain(k, v), PoolAsk::SetPlain(key, value)) => {
            Ok(key.as_slice() == k && is_value(alloc, v, value)?)
        }
        (Asked::Delete(k), PoolAsk::Delete(key)) | (Asked::Has(k), PoolAsk::Has(key)) => {
            Ok(key.as_slice() == k)
        }
        (Asked::Clear, PoolAsk::Clear) => Ok(true),
        _ => Ok(false),
    }
}

// Whether it is this ask.
fn is_ask(alloc: Global, expected: Asked, ask: &PoolAsk) -> Result<bool, Fail> {
    match (expected, ask) {
        (Asked::GetMany(ks, d), PoolAsk::GetMany(keys, default)) => {
            Ok(are_keys(ks, keys) && is_value(alloc, d, default)?)
        }
        (Asked::SetMany(ps, t), PoolAsk::SetMany(pairs, ttl)) => {
            Ok(*ttl == t && are_pairs(alloc, ps, pairs)?)
        }
        (Asked::SetManyPlain(ps), PoolAsk::SetManyPlain(pairs)) => are_pairs(alloc, ps, pairs),
        (Asked::DeleteMany(ks), PoolAsk::DeleteMany(keys)) => Ok(are_keys(ks, keys)),
        _ => is_single(alloc, expected, ask),
    }
}

// A line of the table: the pool, its call, and the events in a cache of 32 slots.
type Row = (&'static [u8], Asked, u64);

// The call is one on a pool as the row has it.
fn expect_call(rt: &impl Abort, alloc: Global, call: &Call, row: Row) -> Result<(), Fail> {
    assert_eq!(rt; call.events(32), row.2);
    match call {
        Call::Pool(boxed) => {
            let call = boxed.call();
            assert_eq!(rt; call.pool.as_slice(), row.0);
            let same = is_ask(alloc, row.1, &call.ask)?;
            assert!(rt; same);
        }
        _ => assert!(rt; false),
    }
    Ok(())
}

fn expect_calls(rt: &impl Abort, alloc: Global, script: &Script, rows: &[Row]) -> Result<(), Fail> {
    assert_eq!(rt; script.len() as usize, rows.len());
    for i in 0..script.len() {
        assert!(rt; (i as usize) < rows.len());
        expect_call(rt, alloc, &script.at(i).call, rows[i as usize])?;
    }
    Ok(())
}

// The text is one script, of these calls.
fn expect_script(rt: &impl Abort, alloc: Global, text: &[u8], rows: &[Row]) -> Result<(), Fail> {
    assert!(rt; text.len() < 1000);
    let scripts = read_scripts(alloc, text)?;
    assert_eq!(rt; scripts.len(), 1);
    assert!(rt; !scripts.is_empty());
    expect_calls(rt, alloc, scripts.at(0), rows)
}

#[test]
fn calls_on_one_key(rt: HostRuntime) -> Result<(), Fail> {
    let text = b"worker\n\
        pool_get s:1:\"p\"; s:1:\"a\";\n\
        pool_get s:4:\"A_.9\"; s:1:\"a\"; i:9;\n\
        pool_set s:1:\"p\"; s:1:\"a\"; i:5;\n\
        pool_set s:1:\"p\"; s:1:\"a\"; i:5; N;\n\
        pool_set s:1:\"p\"; s:1:\"a\"; i:5; i:4294967295;\n\
        pool_set s:1:\"p\"; s:1:\"a\"; i:5; i:0;\n\
        pool_set s:1:\"p\"; s:1:\"a\"; i:5; i:-9223372036854775808;\n\
        pool_delete s:1:\"p\"; s:1:\"a\";\n\
        pool_has s:1:\"p\"; s:2:\"\xff \";\n\
        pool_clear s:1:\"p\";\n";
    const ROWS: &[Row] = &[
        (b"p", Asked::Get(b"a", b"N;"), 1),
        (b"A_.9", Asked::Get(b"a", b"i:9;"), 1),
        (b"p", Asked::SetPlain(b"a", b"i:5;"), 1),
        (b"p", Asked::SetPlain(b"a", b"i:5;"), 1),
        (b"p", Asked::Set(b"a", b"i:5;", 4294967295), 1),
        (b"p", Asked::Set(b"a", b"i:5;", 0), 1),
        (b"p", Asked::Set(b"a", b"i:5;", -9223372036854775808), 1),
        (b"p", Asked::Delete(b"a"), 1),
        (b"p", Asked::Has(b"\xff "), 1),
        (b"p", Asked::Clear, 32),
    ];
    expect_script(&rt, rt.alloc(), text, ROWS)
}

#[test]
fn calls_on_several_keys(rt: HostRuntime) -> Result<(), Fail> {
    let text = b"worker\n\
        pool_get_multiple s:1:\"p\"; a:2:{i:0;s:1:\"a\";i:1;s:1:\"5\";} b:0;\n\
        pool_get_multiple s:1:\"p\"; a:3:{s:1:\"x\";s:1:\"a\";i:7;s:1:\"b\";i:8;s:1:\"a\";}\n\
        pool_get_multiple s:1:\"p\"; a:0:{}\n\
        pool_set_multiple s:1:\"p\"; a:2:{s:1:\"a\";i:1;i:-5;N;} i:7;\n\
        pool_set_multiple s:1:\"p\"; a:1:{s:1:\"a\";i:1;} i:-1;\n\
        pool_set_multiple s:1:\"p\"; a:1:{i:5;i:1;} N;\n\
        pool_set_multiple s:1:\"p\"; a:0:{}\n\
        pool_delete_multiple s:1:\"p\"; a:2:{i:1;s:1:\"a\";i:0;s:1:\"a\";}\n\
        pool_delete_multiple s:1:\"p\"; a:0:{}\n";
    const ROWS: &[Row] = &[
        (b"p", Asked::GetMany(&[b"a", b"5"], b"b:0;"), 2),
        (b"p", Asked::GetMany(&[b"a", b"b", b"a"], b"N;"), 3),
        (b"p", Asked::GetMany(&[], b"N;"), 0),
        (
            b"p",
            Asked::SetMany(&[(b"a", b"i:1;"), (b"-5", b"N;")], 7),
            2,
        ),
        (b"p", Asked::SetMany(&[(b"a", b"i:1;")], -1), 1),
        (b"p", Asked::SetManyPlain(&[(b"5", b"i:1;")]), 1),
        (b"p", Asked::SetManyPlain(&[]), 0),
        (b"p", Asked::DeleteMany(&[b"a", b"a"]), 2),
        (b"p", Asked::DeleteMany(&[]), 0),
    ];
    expect_script(&rt, rt.alloc(), text, ROWS)
}

#[test]
fn patterns_of_calls(rt: HostRuntime) -> Result<(), Fail> {
    let text = b"worker\n\
        pool_clear s:3:\"p.q\";\n\
        APCUIterator_delete s:5:\"/a+/i\";\n\
        pool_delete s:1:\"p\"; s:1:\"a\";\n";
    let scripts = read_scripts(rt.alloc(), text)?;
    assert_eq!(rt; scripts.len(), 1);
    let script = scripts.at(0);
    assert_eq!(rt; script.len(), 3);
    let cleared = script.at(0).call.pattern(rt.alloc())?;
    assert!(rt; is_search(Some((b"\\{p\\.q\\}", false)), &cleared));
    let walked = script.at(1).call.pattern(rt.alloc())?;
    assert!(rt; is_search(Some((b"a+", true)), &walked));
    let deleted = script.at(2).call.pattern(rt.alloc())?;
    assert!(rt; is_search(None, &deleted));
    Ok(())
}
