//! Worked rows of value graphs.

use php_graph::*;
use std::alloc::Global;
use std::mem::size_of;
use std::process::Abort;
use std::test::Fail;

// An item that a table can hold.
#[derive(Clone, Copy)]
enum Step {
    Null,
    Bool(bool),
    Int(i64),
    Str(&'static [u8]),
    Array,
    Object(&'static [u8]),
    Key(i64),
    Name(&'static [u8]),
    Back(u32),
    Same(u32),
    Close,
    // Nulls under this many integers, from the first in these steps.
    Ints(i64, i64, u8),
}

fn bytes(rt: &impl Abort, alloc: Global, text: &[u8]) -> Result<Bytes, BuildFault> {
    assert!(rt; text.len() < 100);
    Ok(Bytes::of(alloc, text)?)
}

fn name(rt: &impl Abort, alloc: Global, text: &[u8]) -> Result<Item, BuildFault> {
    Ok(Item::Key(Key::Str(bytes(rt, alloc, text)?)))
}

fn item(rt: &impl Abort, alloc: Global, step: Step) -> Result<Item, BuildFault> {
    match step {
        Step::Null => Ok(Item::Null),
        Step::Bool(b) => Ok(Item::Bool(b)),
        Step::Int(n) => Ok(Item::Int(n)),
        Step::Str(text) => Ok(Item::Str(bytes(rt, alloc, text)?)),
        Step::Array => Ok(Item::OpenArray),
        Step::Object(class) => Ok(Item::OpenObject(bytes(rt, alloc, class)?)),
        Step::Key(n) => Ok(Item::Key(Key::Int(n))),
        Step::Name(text) => name(rt, alloc, text),
        Step::Back(k) => Ok(Item::Back(k)),
        Step::Same(k) => Ok(Item::Same(k)),
        Step::Close | Step::Ints(_, _, _) => Ok(Item::Close),
    }
}

fn put(rt: &impl Abort, builder: &mut Builder, item: Item) -> Result<(), BuildFault> {
    assert!(rt; builder.wants().permits(&item));
    builder.push(item)
}

fn put_null(rt: &impl Abort, builder: &mut Builder, key: i64) -> Result<(), BuildFault> {
    put(rt, builder, Item::Key(Key::Int(key)))?;
    put(rt, builder, Item::Null)
}

fn put_ints(
    rt: &impl Abort,
    builder: &mut Builder,
    first: i64,
    by: i64,
    count: u8,
) -> Result<(), BuildFault> {
    let mut key = first;
    for _ in 0..count {
        put_null(rt, builder, key)?;
        key = key.wrapping_add(by);
    }
    Ok(())
}

fn put_step(
    rt: &impl Abort,
    alloc: Global,
    builder: &mut Builder,
    step: Step,
) -> Result<(), BuildFault> {
    match step {
        Step::Ints(first, by, count) => put_ints(rt, builder, first, by, count),
        _ => put(rt, builder, item(rt, alloc, step)?),
    }
}

// Each step is accepted, or refused with the fault of its row.
fn play(
    rt: &impl Abort,
    alloc: Global,
    builder: &mut Builder,
    rows: &[(Step, Option<BuildFault>)],
) -> Result<(), BuildFault> {
    for (step, fault) in rows {
        let answer = put_step(rt, alloc, builder, *step);
        match fault {
            None => answer?,
            Some(fault) => assert_eq!(rt; answer, Err(*fault)),
        }
    }
    Ok(())
}

// All of them are accepted.
fn take(
    rt: &impl Abort,
    alloc: Global,
    builder: &mut Builder,
    steps: &[Step],
) -> Result<(), BuildFault> {
    for step in steps {
        put_step(rt, alloc, builder, *step)?;
    }
    Ok(())
}

fn sealed(rt: &impl Abort, builder: Builder) -> Graph {
    assert!(rt; builder.wants() == Wants::Done);
    builder.seal()
}

// The places of the graph that is built.
fn played(
    rt: &impl Abort,
    alloc: Global,
    rows: &[(Step, Option<BuildFault>)],
) -> Result<u32, BuildFault> {
    let mut builder = Builder::new(alloc);
    play(rt, alloc, &mut builder, rows)?;
    Ok(sealed(rt, builder).places())
}

fn built(rt: &impl Abort, alloc: Global, steps: &[Step]) -> Result<Graph, BuildFault> {
    let mut builder = Builder::new(alloc);
    take(rt, alloc, &mut builder, steps)?;
    Ok(sealed(rt, builder))
}

// `a:1:{i:0;R:1;}`
const ITSELF: [Step; 4] = [Step::Array, Step::Key(0), Step::Back(1), Step::Close];

// `a:1:{i:0;a:1:{i:0;R:2;}}`
const CYCLE_INSIDE: [Step; 7] = [
    Step::Array,
    Step::Key(0),
    Step::Array,
    Step::Key(0),
    Step::Back(2),
    Step::Close,
    Step::Close,
];

// `a:2:{i:0;i:1;i:1;a:1:{i:0;R:2;}}`
const SHARES_OUTSIDE: [Step; 9] = [
    Step::Array,
    Step::Key(0),
    Step::Int(1),
    Step::Key(1),
    Step::Array,
    Step::Key(0),
    Step::Back(2),
    Step::Close,
    Step::Close,
];

// `O:1:"A":2:{s:1:"x";r:1;s:1:"y";R:1;}`
const OBJECT: [Step; 6] = [
    Step::Object(b"A"),
    Step::Name(b"x"),
    Step::Same(1),
    Step::Name(b"y"),
    Step::Back(1),
    Step::Close,
];

#[test]
fn parts(rt: HostRuntime) -> Result<(), Fail> {
    let alloc = rt.alloc();
    let whole = built(&rt, alloc, &CYCLE_INSIDE)?;
    assert_eq!(rt; whole.places(), 2);
    match whole.part(alloc, 2)? {
        Some(part) => assert!(rt; part.same(&built(&rt, alloc, &ITSELF)?)),
        None => panic!(rt; "the array at place 2 names itself alone"),
    }
    Ok(())
}

#[test]
fn shared_parts(rt: HostRuntime) -> Result<(), Fail> {
    let alloc = rt.alloc();
    let shared = built(&rt, alloc, &SHARES_OUTSIDE)?;
    assert_eq!(rt; shared.places(), 3);
    assert!(rt; shared.part(alloc, 3)?.is_none());
    assert!(rt; shared.part(alloc, 2)?.is_some());
    Ok(())
}

#[test]
fn graph_copies(rt: HostRuntime) -> Result<(), Fail> {
    let alloc = rt.alloc();
    let graph = built(&rt, alloc, &OBJECT)?;
    let copy = graph.try_copy(alloc)?;
    assert!(rt; graph.same(&copy));
    assert!(rt; !graph.same(&built(&rt, alloc, &ITSELF)?));
    assert_eq!(rt; copy.places(), 2);
    match copy.kind(2) {
        Kind::Same(place) => assert_eq!(rt; *place, 1),
        _ => panic!(rt; "place 2 names the object"),
    }
    Ok(())
}

#[test]
fn sizes(rt: HostRuntime) -> Result<(), Fail> {
    let alloc = rt.alloc();
    let array = built(&rt, alloc, &ITSELF)?;
    assert_eq!(rt; array.words(), 4);
    assert_eq!(rt; block_words(1, &array), 18);
    let graph = built(&rt, alloc, &OBJECT)?;
    assert_eq!(rt; graph.words(), 11);
    assert_eq!(rt; block_words(1, &graph), 24);
    assert_eq!(rt; graph.places(), 2);
    assert_eq!(rt; graph.at(2), 9);
    Ok(())
}

fn hashes_to(rt: &impl Abort, rows: &[(&[u8], u64)]) {
    for (text, low) in rows {
        assert_eq!(rt; hash_of(*text) % 32, *low);
    }
}

#[test]
fn hashes(rt: HostRuntime) {
    assert_eq!(rt; hash_of(b"a"), 9223372036854953478);
    hashes_to(&rt, &[(b"a", 6), (b"A", 6), (b"b", 7)]);
}

fn reads_as(rt: &impl Abort, rows: &[(&[u8], Option<i64>)]) {
    for (text, number) in rows {
        assert_eq!(rt; int_of_text(*text), *number);
    }
}

#[test]
fn texts(rt: HostRuntime) {
    reads_as(
        &rt,
        &[
            (b"0", Some(0)),
            (b"42", Some(42)),
            (b"-7", Some(-7)),
            (b"9223372036854775807", Some(i64::MAX)),
            (b"-9223372036854775808", Some(i64::MIN)),
            (b"9223372036854775808", None),
            (b"-9223372036854775809", None),
            (b"99999999999999999999", None),
            (b"", None),
            (b"-", None),
            (b"-0", None),
            (b"05", None),
            (b"1a", None),
        ],
    );
}

// What a builder refuses.
const REFUSALS: [(Step, Option<BuildFault>); 12] = [
    (Step::Back(1), Some(BuildFault::BadNumber)),
    (Step::Object(b"a-b"), Some(BuildFault::BadClass)),
    (Step::Array, None),
    (Step::Name(b"5"), Some(BuildFault::IntegerText)),
    (Step::Ints(20, -1, 20), None),
    (Step::Key(1), Some(BuildFault::RepeatedKey)),
    (Step::Key(21), None),
    (Step::Same(1), Some(BuildFault::BadNumber)),
    (Step::Bool(true), None),
    (Step::Name(b"05"), None),
    (Step::Str(b"text"), None),
    (Step::Close, None),
];

// Integers that rise and then fall, between names. The integer 177670 has the mark of `a`.
const MIXED: [(Step, Option<BuildFault>); 19] = [
    (Step::Array, None),
    (Step::Ints(0, 1, 12), None),
    (Step::Ints(-1, -1, 12), None),
    (Step::Name(b"b"), None),
    (Step::Null, None),
    (Step::Name(b"a"), None),
    (Step::Null, None),
    (Step::Ints(177670, 1, 1), None),
    (Step::Key(i64::MIN), None),
    (Step::Null, None),
    (Step::Key(i64::MAX), None),
    (Step::Null, None),
    (Step::Key(11), Some(BuildFault::RepeatedKey)),
    (Step::Key(-11), Some(BuildFault::RepeatedKey)),
    (Step::Key(177670), Some(BuildFault::RepeatedKey)),
    (Step::Name(b"a"), Some(BuildFault::RepeatedKey)),
    (Step::Key(12), None),
    (Step::Null, None),
    (Step::Close, None),
];

// A key that was refused with many others there is refused again, and others are accepted.
const RISING: [(Step, Option<BuildFault>); 9] = [
    (Step::Array, None),
    (Step::Ints(0, 3, 20), None),
    (Step::Key(0), Some(BuildFault::RepeatedKey)),
    (Step::Key(57), Some(BuildFault::RepeatedKey)),
    (Step::Ints(1, 1, 1), None),
    (Step::Ints(60, 1, 1), None),
    (Step::Key(60), Some(BuildFault::RepeatedKey)),
    (Step::Key(1), Some(BuildFault::RepeatedKey)),
    (Step::Close, None),
];

// Twelve names whose hashes fall, and four of one hash; each is refused once more, and another is
// accepted.
const NAMES: [(Step, Option<BuildFault>); 42] = [
    (Step::Array, None),
    (Step::Name(b"z"), None),
    (Step::Null, None),
    (Step::Name(b"y"), None),
    (Step::Null, None),
    (Step::Name(b"x"), None),
    (Step::Null, None),
    (Step::Name(b"w"), None),
    (Step::Null, None),
    (Step::Name(b"v"), None),
    (Step::Null, None),
    (Step::Name(b"u"), None),
    (Step::Null, None),
    (Step::Name(b"t"), None),
    (Step::Null, None),
    (Step::Name(b"s"), None),
    (Step::Null, None),
    (Step::Name(b"r"), None),
    (Step::Null, None),
    (Step::Name(b"q"), None),
    (Step::Null, None),
    (Step::Name(b"p"), None),
    (Step::Null, None),
    (Step::Name(b"o"), None),
    (Step::Null, None),
    (Step::Name(b"EzEz"), None),
    (Step::Null, None),
    (Step::Name(b"FYFY"), None),
    (Step::Null, None),
    (Step::Name(b"EzFY"), None),
    (Step::Null, None),
    (Step::Name(b"FYEz"), None),
    (Step::Null, None),
    (Step::Name(b"EzEz"), Some(BuildFault::RepeatedKey)),
    (Step::Name(b"FYFY"), Some(BuildFault::RepeatedKey)),
    (Step::Name(b"EzFY"), Some(BuildFault::RepeatedKey)),
    (Step::Name(b"FYEz"), Some(BuildFault::RepeatedKey)),
    (Step::Name(b"z"), Some(BuildFault::RepeatedKey)),
    (Step::Name(b"o"), Some(BuildFault::RepeatedKey)),
    (Step::Name(b"n"), None),
    (Step::Null, None),
    (Step::Close, None),
];

fn counts(
    rt: &impl Abort,
    alloc: Global,
    tables: &[(&[(Step, Option<BuildFault>)], u32)],
) -> Result<(), BuildFault> {
    for (rows, places) in tables {
        assert_eq!(rt; played(rt, alloc, rows)?, *places);
    }
    Ok(())
}

#[test]
fn tables(rt: HostRuntime) -> Result<(), Fail> {
    counts(
        &rt,
        rt.alloc(),
        &[
            (&REFUSALS[..], 23),
            (&NAMES[..], 18),
            (&MIXED[..], 31),
            (&RISING[..], 23),
        ],
    )?;
    Ok(())
}

// The memory of a value in an array is its place with its offset, and its member. A graph contains
// its first place.
#[test]
fn graph_is_small(rt: HostRuntime) {
    assert!(rt; size_of::<Place>() + size_of::<(Key, Child)>() <= 72);
    assert!(rt; size_of::<Graph>() <= 64);
}
