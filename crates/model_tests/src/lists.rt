//! The arguments and results of calls: pairs, keys, items, requests and journals.

use crate::play::{Value, generator, key, small, value_of};
use apcu_model::{Ask, Gen, GenKind, ItemRow, Items, Journal, Keys, Mark, Pairs, Request};
use php_graph::Bytes;
use plain_cache::Plain;
use std::alloc::Global;
use std::process::Abort;
use std::test::Fail;

fn two_pairs(rt: &impl Abort, alloc: Global) -> Result<Pairs, Fail> {
    let mut pairs = Pairs::new(alloc);
    for (name, value) in [(1, Value::Int(1)), (2, Value::Text(3_729))] {
        let key = key(alloc, name)?;
        let value = value_of(rt, alloc, value)?;
        assert!(rt; pairs.len() < 2);
        pairs.push(key, value)?;
    }
    Ok(pairs)
}

fn expect_two(rt: &impl Abort, pairs: &Pairs) {
    assert_eq!(rt; pairs.len(), 2);
    assert_eq!(rt; pairs.at(1).1.places(), 1);
    assert_eq!(rt; pairs.as_slice().len(), 2);
}

// The keys of the pairs that are not stored.
fn failed_of(rt: &impl Abort, alloc: Global, pairs: &Pairs) -> Result<Keys, Fail> {
    let mut plain = Plain::new(alloc, &small(0));
    let mut failed = Keys::new(alloc);
    assert!(rt; failed.is_empty());
    for (key, value) in pairs.as_slice() {
        let name = Bytes::of(alloc, key.as_slice())?;
        let copy = Bytes::of(alloc, key.as_slice())?;
        if !plain.store(copy, value.try_copy(alloc)?, 0, false, 100)? {
            assert!(rt; failed.len() < 2);
            failed.push(name)?;
        }
    }
    Ok(failed)
}

fn expect_key(rt: &impl Abort, keys: &Keys, text: &[u8]) {
    assert_eq!(rt; keys.as_slice().len(), 1);
    assert_eq!(rt; keys.len(), 1);
    assert_eq!(rt; keys.at(0).as_slice(), text);
}

// Of two pairs the second is too large: a store of both returns only its key.
#[test]
fn stores_pairs(rt: HostRuntime) -> Result<(), Fail> {
    let pairs = two_pairs(&rt, rt.alloc())?;
    expect_two(&rt, &pairs);
    let failed = failed_of(&rt, rt.alloc(), &pairs)?;
    expect_key(&rt, &failed, b"k02");
    Ok(())
}

fn misses_of(alloc: Global, keys: &Keys) -> u64 {
    let mut plain = Plain::new(alloc, &small(0));
    for key in keys.as_slice() {
        plain.count_fetch(key.as_slice(), 100);
    }
    plain.counts().misses
}

// A fetch of no keys is no event.
#[test]
fn fetches_no_keys(rt: HostRuntime) -> Result<(), Fail> {
    let alloc = rt.alloc();
    assert_eq!(rt; misses_of(alloc, &Keys::new(alloc)), 0);
    let none = Pairs::new(alloc);
    assert!(rt; none.is_empty());
    Ok(())
}

fn item(alloc: Global, name: u8) -> Result<ItemRow, Fail> {
    Ok(ItemRow {
        key: key(alloc, name)?,
        value: None,
        hits: 0,
        mtime: 0,
        ctime: 0,
        dtime: 0,
        atime: 0,
        size: 128,
        ttl: 0,
    })
}

fn two_items(rt: &impl Abort, alloc: Global) -> Result<Items, Fail> {
    let mut items = Items::new(alloc);
    assert!(rt; items.is_empty());
    for name in [1, 2] {
        let row = item(alloc, name)?;
        assert!(rt; items.len() < 2);
        items.push(row)?;
    }
    Ok(items)
}

fn expect_items(rt: &impl Abort, items: &Items) {
    assert!(rt; items.len() == 2);
    assert_eq!(rt; items.at(0).key.as_slice(), b"k01".as_slice());
    assert_eq!(rt; items.at(1).key.as_slice(), b"k02".as_slice());
}

// Items are in the order in which they were added.
#[test]
fn gathers_items(rt: HostRuntime) -> Result<(), Fail> {
    let items = two_items(&rt, rt.alloc())?;
    expect_items(&rt, &items);
    Ok(())
}

#[test]
fn takes_over_items(rt: HostRuntime) -> Result<(), Fail> {
    let row = item(rt.alloc(), 3)?;
    let rows = Vec::from_array(rt.alloc(), [row])?;
    let items = Items::from_vec(rows);
    assert_eq!(rt; items.as_slice().len(), 1);
    Ok(())
}

// The first key of two and its time to live, with one entry inside.
fn expect_outer(rt: &impl Abort, generator: &Gen) {
    assert_eq!(rt; generator.entries(), 2);
    match generator.kind() {
        GenKind::Entry(key, ttl, inner) => {
            assert_eq!(rt; key.as_slice(), b"k01".as_slice());
            assert_eq!(rt; *ttl, 0);
            assert_eq!(rt; inner.entries(), 1);
        }
        GenKind::Value(_) => panic!(rt; "it has two entries"),
    }
}

fn expect_entry(rt: &impl Abort, lent: Ask) {
    match lent {
        Ask::Entry(generator) => expect_outer(rt, generator),
        _ => panic!(rt; "an entry is lent as one"),
    }
}

fn expect_delete(rt: &impl Abort, lent: Ask) {
    match lent {
        Ask::Delete(key) => assert_eq!(rt; key, b"k07".as_slice()),
        _ => panic!(rt; "a deletion is lent as one"),
    }
}

// A generator knows its number of entries, and a request lends it.
#[test]
fn tells_its_entries(rt: HostRuntime) -> Result<(), Fail> {
    let value = value_of(&rt, rt.alloc(), Value::Int(7))?;
    let request = Request::Entry(generator(rt.alloc(), &[(1, 0), (2, 5)], value)?);
    expect_entry(&rt, request.lent());
    Ok(())
}

#[test]
fn lends_a_request(rt: HostRuntime) -> Result<(), Fail> {
    let request = Request::Delete(key(rt.alloc(), 7)?);
    expect_delete(&rt, request.lent());
    Ok(())
}

fn expect_mark(rt: &impl Abort, journal: &Journal, mark: Mark) {
    assert_eq!(rt; journal.len(), 1);
    assert_eq!(rt; journal.at(0), mark);
}

#[test]
fn keeps_a_journal(rt: HostRuntime) -> Result<(), Fail> {
    let mut journal = Journal::new(rt.alloc(), 2)?;
    assert!(rt; journal.is_empty());
    let mark = Mark { worker: 3, mask: 5 };
    journal.push(mark);
    expect_mark(&rt, &journal, mark);
    assert!(rt; small(0).usable());
    Ok(())
}
