//! The requests that a script is expected to make, call by call.

use apcu_model::{Gen, GenKind, Keys, List, Pairs, Pattern};
use notation::{Cursor, read_value};
use php_graph::Graph;
use script_read::{Call, Script, Step, read_scripts};
use std::alloc::Global;
use std::process::Abort;
use std::test::Fail;

// A pattern's text, and whether letters match in either case.
pub(crate) type Search = Option<(&'static [u8], bool)>;

// A call as a table has it: values and pairs by their texts.
#[derive(Clone, Copy)]
pub(crate) enum Asked {
    Store(&'static [u8], &'static [u8], u32, bool),
    StoreMany(&'static [(&'static [u8], &'static [u8])], u32, bool),
    Fetch(&'static [u8]),
    FetchMany(&'static [&'static [u8]]),
    Exists(&'static [u8]),
    ExistsMany(&'static [&'static [u8]]),
    Delete(&'static [u8]),
    DeleteMany(&'static [&'static [u8]]),
    Inc(&'static [u8], i64, u32),
    Cas(&'static [u8], i64, i64),
    Entry(&'static [(&'static [u8], u32)], &'static [u8]),
    Clear,
    Enabled,
    KeyInfo(&'static [u8]),
    CacheInfo(bool),
    SmaInfo(bool),
    Walk(Search, u16, u32, List),
    WalkDelete(Search, u32),
    Totals(Search, List),
}

pub(crate) fn is_value(alloc: Global, text: &[u8], value: &Graph) -> Result<bool, Fail> {
    let mut from = Cursor::new(text);
    let expected = read_value(alloc, &mut from)?;
    Ok(expected.same(value))
}

pub(crate) fn are_keys(expected: &[&[u8]], keys: &Keys) -> bool {
    if keys.len() as usize != expected.len() {
        return false;
    }
    for (i, key) in keys.as_slice().iter().enumerate() {
        if i >= expected.len() || key.as_slice() != expected[i] {
            return false;
        }
    }
    true
}

pub(crate) fn are_pairs(
    alloc: Global,
    expected: &[(&[u8], &[u8])],
    pairs: &Pairs,
) -> Result<bool, Fail> {
    if pairs.len() as usize != expected.len() {
        return Ok(false);
    }
    for (i, pair) in pairs.as_slice().iter().enumerate() {
        if i >= expected.len() || pair.0.as_slice() != expected[i].0 {
            return Ok(false);
        }
        if !is_value(alloc, expected[i].1, &pair.1)? {
            return Ok(false);
        }
    }
    Ok(true)
}

// The keys and ttls from the outermost inwards, and the value inside.
fn is_generator(
    alloc: Global,
    levels: &[(&[u8], u32)],
    literal: &[u8],
    generator: &Gen,
) -> Result<bool, Fail> {
    let mut inside = generator;
    for level in levels {
        match inside.kind() {
            GenKind::Entry(key, ttl, inner) => {
                if key.as_slice() != level.0 || *ttl != level.1 {
                    return Ok(false);
                }
                inside = inner;
            }
            GenKind::Value(_) => return Ok(false),
        }
    }
    match inside.kind() {
        GenKind::Value(value) => is_value(alloc, literal, value),
        GenKind::Entry(..) => Ok(false),
    }
}

pub(crate) fn is_search(expected: Search, search: &Option<Pattern>) -> bool {
    match (expected, search) {
        (None, None) => true,
        (Some((text, fold)), Some(pattern)) => {
            pattern.text.as_slice() == text && pattern.fold == fold
        }
        _ => false,
    }
}

// Whether it is this iterator.
fn is_iterator(expected: Asked, call: &Call) -> bool {
    match (expected, call) {
        (
            Asked::Walk(s, f, n, l),
            Call::Walk {
                search,
                fields,
                size,
                list,
            },
        ) => is_search(s, search) && fields.0 == f && *size == n && *list == l,
        (Asked::WalkDelete(s, n), Call::WalkDelete { search, size }) => {
            is_search(s, search) && *size == n
        }
        (Asked::Totals(s, l), Call::Totals { search, list }) => is_search(s, search) && *list == l,
        _ => false,
    }
}

// Whether it is this call, if that holds no values.
fn is_plain_call(expected: Asked, call: &Call) -> bool {
    match (expected, call) {
        (Asked::Fetch(k), Call::FetchOne(key))
        | (Asked::Exists(k), Call::ExistsOne(key))
        | (Asked::Delete(k), Call::DeleteOne(key))
        | (Asked::KeyInfo(k), Call::KeyInfo(key)) => key.as_slice() == k,
        (Asked::FetchMany(ks), Call::FetchMany(keys))
        | (Asked::ExistsMany(ks), Call::ExistsMany(keys))
        | (Asked::DeleteMany(ks), Call::DeleteMany(keys)) => are_keys(ks, keys),
        (Asked::Inc(k, n, t), Call::Inc { key, step, ttl }) => {
            key.as_slice() == k && *step == n && *ttl == t
        }
        (Asked::Cas(k, e, s), Call::Cas { key, expect, set }) => {
            key.as_slice() == k && *expect == e && *set == s
        }
        (Asked::Clear, Call::Clear) | (Asked::Enabled, Call::Enabled) => true,
        (Asked::CacheInfo(l), Call::CacheInfo(limited))
        | (Asked::SmaInfo(l), Call::SmaInfo(limited)) => *limited == l,
        _ => is_iterator(expected, call),
    }
}

// Whether it is this call.
fn is_call(alloc: Global, expected: Asked, call: &Call) -> Result<bool, Fail> {
    match (expected, call) {
        (
            Asked::Store(k, v, t, x),
            Call::StoreOne {
                key,
                value,
                ttl,
                exclusive,
            },
        ) => Ok(key.as_slice() == k && *ttl == t && *exclusive == x && is_value(alloc, v, value)?),
        (
            Asked::StoreMany(ps, t, x),
            Call::StoreMany {
                pairs,
                ttl,
                exclusive,
            },
        ) => Ok(*ttl == t && *exclusive == x && are_pairs(alloc, ps, pairs)?),
        (Asked::Entry(levels, literal), Call::Entry(generator)) => {
            is_generator(alloc, levels, literal, generator)
        }
        _ => Ok(is_plain_call(expected, call)),
    }
}

// A line of the table: the moment, the call, and its events.
pub(crate) type Row = (u64, Asked, u64);

// The step's moment, its call and the largest number of its events.
fn expect_step(rt: &impl Abort, alloc: Global, step: &Step, row: Row) -> Result<(), Fail> {
    assert_eq!(rt; step.t, row.0);
    let same = is_call(alloc, row.1, &step.call)?;
    assert!(rt; same);
    assert_eq!(rt; step.call.events(32), row.2);
    Ok(())
}

pub(crate) fn expect_script(
    rt: &impl Abort,
    alloc: Global,
    script: &Script,
    rows: &[Row],
) -> Result<(), Fail> {
    assert_eq!(rt; script.len() as usize, rows.len());
    for i in 0..script.len() {
        assert!(rt; (i as usize) < rows.len());
        expect_step(rt, alloc, script.at(i), rows[i as usize])?;
    }
    Ok(())
}

pub(crate) fn expect_steps(
    rt: &impl Abort,
    alloc: Global,
    text: &[u8],
    rows: &[Row],
) -> Result<(), Fail> {
    assert!(rt; text.len() < 1000);
    let scripts = read_scripts(alloc, text)?;
    assert_eq!(rt; scripts.len(), 1);
    assert!(rt; !scripts.is_empty());
    expect_script(rt, alloc, scripts.at(0), rows)
}
