//! Steps and totals of iterators, their deletions, and their searches.

use crate::pair::shape;
use crate::small::Small;
use apcu_model::{Chunk, Fields, List, Pattern};
use php_graph::Bytes;
use row_search::{RefuseAll, RegexMaker, Search, SearchFault};
use std::alloc::{AllocError, Global};
use std::test::Fail;

// A pattern of a text of three bytes.
fn pattern(alloc: Global, text: [u8; 3], fold: bool) -> Result<Pattern, AllocError> {
    let text = Bytes::of(alloc, &text)?;
    Ok(Pattern { text, fold })
}

// A search for such a pattern, by `regex`.
fn search_for(alloc: Global, text: [u8; 3], fold: bool) -> Result<Search, SearchFault> {
    let pattern = pattern(alloc, text, fold)?;
    Search::new(alloc, &RegexMaker, Some(&pattern))
}

// The bit of the key, and that of the value.
const KEY: Fields = Fields(1);

const KEY_AND_VALUE: Fields = Fields(3);

// A cache of 4096 words without rows.
fn empty(alloc: Global) -> Result<Small, Fail> {
    let conf = shape(4_096, 0);
    Small::new(alloc, &conf)
}

// A cache with rows of the keys `a`, `A` and `b`, whose slots are 6, 6 and 7.
fn three(alloc: Global) -> Result<Small, Fail> {
    let mut small = empty(alloc)?;
    for key in [b'a', b'A', b'b'] {
        small.store(alloc, key, 0);
    }
    Ok(small)
}

// The result of a step: the slot after it, the number of items, and the key of the first one.
#[derive(Clone, Copy, Debug, PartialEq, Eq)]
struct Step {
    next: u32,
    items: u32,
    first: u8,
}

fn step_of(chunk: &Chunk) -> Step {
    let first = match chunk.items.as_slice().first() {
        Some(item) => item.key.as_slice().first().copied().unwrap_or(0),
        None => 0,
    };
    Step {
        next: chunk.next,
        items: chunk.items.len(),
        first,
    }
}

// A step over the three rows, with a pattern, from a slot on.
fn one_step(
    alloc: Global,
    small: &mut Small,
    text: [u8; 3],
    fold: bool,
    from: u32,
    size: u32,
) -> Option<Step> {
    let mut search = search_for(alloc, text, fold).ok()?;
    let chunk = small.step(alloc, &mut search, from, size, List::Active, KEY, 100)?;
    Some(step_of(&chunk))
}

// How a step's size, its first slot and the pattern affect the step.
#[test]
fn takes_the_fewest_slots(rt: HostRuntime) -> Result<(), Fail> {
    let alloc = rt.alloc();
    let mut small = three(alloc)?;
    let steps = [
        (*b"^.$", false, 0, 1, (7, 2, b'a')),
        (*b"^.$", false, 0, 2, (7, 2, b'a')),
        (*b"^.$", false, 0, 3, (8, 3, b'a')),
        (*b"^.$", false, 0, 4, (32, 3, b'a')),
        (*b"^.$", false, 7, 1, (8, 1, b'b')),
        (*b"^.$", false, 8, 1, (32, 0, 0)),
        (*b"^a$", false, 0, 2, (32, 1, b'a')),
        (*b"^a$", true, 0, 2, (7, 2, b'a')),
        (*b"b|A", false, 0, 2, (8, 2, b'A')),
    ];
    for (text, fold, from, size, (next, items, first)) in steps {
        let step = one_step(alloc, &mut small, text, fold, from, size);
        assert_eq!(rt; step, Some(Step { next, items, first }));
    }
    Ok(())
}

// The first item of a step.
#[derive(Clone, Copy, Debug, PartialEq, Eq)]
struct Told {
    has_value: bool,
    hits: u64,
    moments: [u64; 4],
    size: u64,
    ttl: u32,
}

fn told_of(chunk: &Chunk) -> Option<Told> {
    let item = chunk.items.as_slice().first()?;
    Some(Told {
        has_value: item.value.is_some(),
        hits: item.hits,
        moments: [item.mtime, item.ctime, item.dtime, item.atime],
        size: item.size,
        ttl: item.ttl,
    })
}

// The item at a moment of a row that was stored with ten seconds to live.
fn told_at(
    alloc: Global,
    small: &mut Small,
    search: &mut Search,
    list: List,
    fields: Fields,
    t: u64,
) -> Option<Told> {
    let chunk = small.step(alloc, search, 0, 9, list, fields, t)?;
    told_of(&chunk)
}

// An item has the row's information, and its value if it is selected. An expired row is skipped.
#[test]
fn tells_what_is_asked(rt: HostRuntime) -> Result<(), Fail> {
    let alloc = rt.alloc();
    let mut search = Search::new(alloc, &RefuseAll, None)?;
    let mut small = empty(alloc)?;
    small.store(alloc, b'a', 10);
    small.fetch(b'a', 105);
    let told = Told {
        has_value: false,
        hits: 1,
        moments: [100, 100, 0, 105],
        size: 128,
        ttl: 10,
    };
    let full = Told {
        has_value: true,
        ..told
    };
    let asked = [
        (List::Active, KEY, 110, Some(told)),
        (List::Active, KEY_AND_VALUE, 110, Some(full)),
        (List::Active, KEY, 111, None),
        (List::Deleted, KEY, 110, None),
    ];
    for (list, fields, t, told) in asked {
        let answer = told_at(alloc, &mut small, &mut search, list, fields, t);
        assert_eq!(rt; answer, told);
    }
    Ok(())
}

// Deletes what a pattern matches, in two steps; the totals of the rows before it and after it.
#[test]
fn deletes_what_matches(rt: HostRuntime) -> Result<(), Fail> {
    let alloc = rt.alloc();
    let mut small = three(alloc)?;
    let mut both = search_for(alloc, *b"^a$", true)?;
    let mut every = Search::new(alloc, &RefuseAll, None)?;
    small.fetch(b'b', 100);
    assert_eq!(rt; small.totals(&mut both, List::Active), Some((2, 0, 256)));
    assert_eq!(rt; small.totals(&mut every, List::Active), Some((3, 1, 384)));
    assert_eq!(rt; small.delete(alloc, &mut both, 0, 1, 100), Some(7));
    assert_eq!(rt; small.delete(alloc, &mut both, 7, 1, 100), Some(32));
    assert_eq!(rt; small.totals(&mut every, List::Active), Some((1, 1, 128)));
    assert_eq!(rt; small.totals(&mut every, List::Deleted), Some((0, 0, 0)));
    Ok(())
}

// Why there is no search, if there is none.
fn fault_of(alloc: Global, text: [u8; 3], refuse: bool) -> Option<SearchFault> {
    let Ok(pattern) = pattern(alloc, text, false) else {
        return Some(SearchFault::Memory);
    };
    let made = if refuse {
        Search::new(alloc, &RefuseAll, Some(&pattern))
    } else {
        Search::new(alloc, &RegexMaker, Some(&pattern))
    };
    made.err()
}

// Which texts are no patterns; every pattern is refused by a maker that refuses all.
#[test]
fn refuses(rt: HostRuntime) -> Result<(), Fail> {
    let alloc = rt.alloc();
    let texts = [
        (*b"(a|", false, Some(SearchFault::BadPattern)),
        (*b"a\xff\xff", false, Some(SearchFault::BadPattern)),
        (*b"^a$", true, Some(SearchFault::TooBig)),
        (*b"^a$", false, None),
    ];
    for (text, refuse, fault) in texts {
        assert_eq!(rt; fault_of(alloc, text, refuse), fault);
    }
    Ok(())
}

// The pattern that a search was made with.
#[test]
fn keeps_its_pattern(rt: HostRuntime) -> Result<(), Fail> {
    let search = search_for(rt.alloc(), *b"^a$", true)?;
    let kept = match search.pattern() {
        Some(pattern) => pattern.fold && pattern.text.as_slice() == b"^a$".as_slice(),
        None => false,
    };
    assert!(rt; kept);
    Ok(())
}
