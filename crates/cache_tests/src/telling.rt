//! Information about a key, the cache and its segment.

ghost use Rattle.std.specs.Prelude.{◌≡◌, false, IfOk};
ghost use Rattle.apcu_model.specs.Sequential.{is_iteration};

use crate::asking::{Act, NO, NONE, YES, segments, shape};
use crate::both::Both;
use crate::info_draws::{Draw, key};
use apcu_model::{Conf, MOST_WORDS, Request};
use notation::ByteOut;
use php_graph::Bytes;
use std::alloc::Global;
use std::process::Abort;
use std::test::Fail;

// A request at its time under a key, with the result of both.
type Row<'a> = (u64, &'a [u8], Act, Option<i64>);

fn play(rt: &impl Abort, both: &mut Both, rows: &[Row<'_>]) -> Result<(), Fail> {
    for (t, key, act, wanted) in rows {
        let answer = both.ask(rt, key, *act, *t)?;
        assert_eq!(rt; answer, *wanted);
    }
    Ok(())
}

// The information: about a key at a moment, the cache, or the segment; the flag is for less of it.
#[derive(Clone, Copy)]
enum Told<'a> {
    Key(&'a [u8], u64),
    Cache(bool),
    Segment(bool),
}

// The request for it, and its moment.
fn asked(rt: &impl Abort, alloc: Global, what: Told<'_>) -> Result<(Request, u64), Fail>
    ensures { IfOk result (λ asked. is_iteration asked.0 ≡ false) }
{
    match what {
        Told::Key(key, t) => {
            assert!(rt; key.len() < 1 << 20);
            Ok((Request::KeyInfo(Bytes::of(alloc, key)?), t))
        }
        Told::Cache(limited) => Ok((Request::CacheInfo(limited), 0)),
        Told::Segment(limited) => Ok((Request::SmaInfo(limited), 0)),
    }
}

fn tell(rt: &impl Abort, alloc: Global, both: &mut Both, what: Told<'_>) -> Result<ByteOut, Fail> {
    let (request, t) = asked(rt, alloc, what)?;
    both.tell(rt, &request, t)
}

// The text is these parts, one after the other.
fn reads(rt: &impl Abort, told: &ByteOut, parts: &[&str]) {
    let mut left = told.as_slice();
    for part in parts {
        let bytes = part.as_bytes();
        let len = bytes.len();
        assert!(rt; len <= left.len());
        assert!(rt; &left[..len] == bytes);
        left = &left[len..];
    }
    assert!(rt; left.is_empty());
}

// The text of a reply, in parts.
type Text = (Told<'static>, &'static [&'static str]);

fn tell_all(rt: &impl Abort, alloc: Global, both: &mut Both, texts: &[Text]) -> Result<(), Fail> {
    for (what, parts) in texts {
        let told = tell(rt, alloc, both, *what)?;
        reads(rt, &told, parts);
    }
    Ok(())
}

// The reply of both after these rows, in new caches of this shape.
fn told_after(
    rt: &impl Abort,
    alloc: Global,
    conf: &Conf,
    rows: &[Row<'_>],
    texts: &[Text],
) -> Result<(), Fail> {
    let mut both = Both::new(rt, alloc, conf)?;
    play(rt, &mut both, rows)?;
    tell_all(rt, alloc, &mut both, texts)
}

// A number is stored under each key from one number to another, at a moment and with a ttl.
type Each = ((u8, u8), u64, u32);

fn put_each(rt: &impl Abort, both: &mut Both, each: Each) -> Result<(), Fail> {
    let (names, t, ttl) = each;
    for name in names.0..=names.1 {
        let answer = both.ask(rt, &key(name), Act::Put(1, ttl), t)?;
        assert_eq!(rt; answer, YES);
    }
    Ok(())
}

// The same after these, in 512 words with this ttl.
fn told_after_each(
    rt: &impl Abort,
    alloc: Global,
    limit: u32,
    all: &[Each],
    texts: &[Text],
) -> Result<(), Fail> {
    let mut both = Both::new(rt, alloc, &shape(512, limit))?;
    for each in all {
        put_each(rt, &mut both, *each)?;
    }
    tell_all(rt, alloc, &mut both, texts)
}

// A row that was fetched, a key without a row, and an expired row, which is not found.
#[test]
fn tells_of_a_key(rt: HostRuntime) -> Result<(), Fail> {
    const TEXTS: &[Text] = &[
        (
            Told::Key(b"a", 110),
            &[
                "a:6:{s:4:\"hits\";i:1;s:11:\"access_time\";i:105;s:5:\"mtime\";i:100;",
                "s:13:\"creation_time\";i:100;s:13:\"deletion_time\";i:0;s:3:\"ttl\";i:10;}",
            ],
        ),
        (Told::Key(b"x", 105), &["N;"]),
        (Told::Key(b"a", 111), &["N;"]),
    ];
    told_after(
        &rt,
        rt.alloc(),
        &shape(512, 0),
        &[
            (100, b"a", Act::Put(1, 10), YES),
            (105, b"a", Act::Fetch, Some(1)),
        ],
        TEXTS,
    )
}

// Two words more than a valid shape has. The plain cache would read each of them to list its gaps.
#[test]
fn tells_of_more_words_than_are_good(rt: HostRuntime) -> Result<(), Fail> {
    const TEXTS: &[Text] = &[(
        Told::Cache(true),
        &[
            "a:8:{s:9:\"num_slots\";i:32;s:3:\"ttl\";i:0;s:8:\"num_hits\";i:1;",
            "s:10:\"num_misses\";i:0;s:11:\"num_inserts\";i:1;s:11:\"num_entries\";i:1;",
            "s:8:\"expunges\";i:0;s:8:\"mem_size\";i:128;}",
        ],
    )];
    let large = shape(MOST_WORDS + 2, 0);
    assert!(rt; !large.good());
    told_after(
        &rt,
        rt.alloc(),
        &large,
        &[
            (100, b"a", Act::Put(1, 10), YES),
            (105, b"a", Act::Fetch, Some(1)),
        ],
        TEXTS,
    )
}

// Thirty rows fill the segment, and one more requires that all of them are dropped.
#[test]
fn tells_of_a_cache_after_an_expunge(rt: HostRuntime) -> Result<(), Fail> {
    const TEXTS: &[Text] = &[
        (
            Told::Cache(true),
            &[
                "a:8:{s:9:\"num_slots\";i:32;s:3:\"ttl\";i:0;s:8:\"num_hits\";i:0;",
                "s:10:\"num_misses\";i:0;s:11:\"num_inserts\";i:1;s:11:\"num_entries\";i:1;",
                "s:8:\"expunges\";i:1;s:8:\"mem_size\";i:128;}",
            ],
        ),
        (
            Told::Segment(false),
            &[
                "a:4:{s:7:\"num_seg\";i:1;s:8:\"seg_size\";i:4096;s:9:\"avail_mem\";i:3712;",
                "s:11:\"block_lists\";a:1:{i:0;a:1:{i:0;a:2:{s:4:\"size\";i:3712;",
                "s:6:\"offset\";i:384;}}}}",
            ],
        ),
    ];
    told_after_each(&rt, rt.alloc(), 0, &[((1, 31), 100, 0)], TEXTS)
}

// If one row has expired, only that one is dropped; the segment is full again.
#[test]
fn tells_of_a_cache_without_an_expunge(rt: HostRuntime) -> Result<(), Fail> {
    const TEXTS: &[Text] = &[
        (
            Told::Cache(true),
            &[
                "a:8:{s:9:\"num_slots\";i:32;s:3:\"ttl\";i:10;s:8:\"num_hits\";i:0;",
                "s:10:\"num_misses\";i:0;s:11:\"num_inserts\";i:31;s:11:\"num_entries\";i:30;",
                "s:8:\"expunges\";i:0;s:8:\"mem_size\";i:3840;}",
            ],
        ),
        (
            Told::Segment(false),
            &[
                "a:4:{s:7:\"num_seg\";i:1;s:8:\"seg_size\";i:4096;s:9:\"avail_mem\";i:0;",
                "s:11:\"block_lists\";a:1:{i:0;a:0:{}}}",
            ],
        ),
    ];
    told_after_each(
        &rt,
        rt.alloc(),
        10,
        &[((1, 1), 100, 5), ((2, 30), 100, 0), ((31, 31), 106, 0)],
        TEXTS,
    )
}

// Rows come by slot and place, expired ones included; gaps by rising place.
#[test]
fn lists_rows_and_gaps(rt: HostRuntime) -> Result<(), Fail> {
    const TEXTS: &[Text] = &[
        (
            Told::Cache(false),
            &[
                "a:10:{s:9:\"num_slots\";i:32;s:3:\"ttl\";i:0;s:8:\"num_hits\";i:0;",
                "s:10:\"num_misses\";i:1;s:11:\"num_inserts\";i:4;s:11:\"num_entries\";i:3;",
                "s:8:\"expunges\";i:0;s:8:\"mem_size\";i:384;s:10:\"cache_list\";a:3:{i:0;a:8:{",
                "s:4:\"info\";s:1:\"a\";s:3:\"ttl\";i:5;s:8:\"num_hits\";i:0;s:5:\"mtime\";i:101;",
                "s:13:\"creation_time\";i:101;s:13:\"deletion_time\";i:0;",
                "s:11:\"access_time\";i:101;s:8:\"mem_size\";i:128;}i:1;a:8:{",
                "s:4:\"info\";s:1:\"A\";s:3:\"ttl\";i:0;s:8:\"num_hits\";i:0;s:5:\"mtime\";i:102;",
                "s:13:\"creation_time\";i:102;s:13:\"deletion_time\";i:0;",
                "s:11:\"access_time\";i:102;s:8:\"mem_size\";i:128;}i:2;a:8:{",
                "s:4:\"info\";s:1:\"b\";s:3:\"ttl\";i:0;s:8:\"num_hits\";i:0;s:5:\"mtime\";i:100;",
                "s:13:\"creation_time\";i:100;s:13:\"deletion_time\";i:0;",
                "s:11:\"access_time\";i:100;s:8:\"mem_size\";i:128;}}s:12:\"deleted_list\";a:0:{",
                "}}",
            ],
        ),
        (
            Told::Segment(false),
            &[
                "a:4:{s:7:\"num_seg\";i:1;s:8:\"seg_size\";i:4096;s:9:\"avail_mem\";i:3456;",
                "s:11:\"block_lists\";a:1:{i:0;a:2:{i:0;a:2:{s:4:\"size\";i:128;",
                "s:6:\"offset\";i:384;}i:1;a:2:{s:4:\"size\";i:3328;s:6:\"offset\";i:768;}}}}",
            ],
        ),
        (
            Told::Segment(true),
            &["a:3:{s:7:\"num_seg\";i:1;s:8:\"seg_size\";i:4096;s:9:\"avail_mem\";i:3456;}"],
        ),
    ];
    told_after(
        &rt,
        rt.alloc(),
        &shape(512, 0),
        &[
            (100, b"b", Act::Put(1, 0), YES),
            (100, b"c", Act::Put(1, 0), YES),
            (101, b"a", Act::Put(1, 5), YES),
            (102, b"A", Act::Text(9, 0), YES),
            (103, b"c", Act::Delete, YES),
            (107, b"a", Act::Fetch, NONE),
        ],
        TEXTS,
    )
}

// Compares information about both, as the draw selects.
fn tell_drawn(rt: &impl Abort, alloc: Global, both: &mut Both, draw: Draw) -> Result<(), Fail> {
    let key = key(draw.name() % 20);
    let what = match (draw.bits >> 40) % 8 {
        0 => Told::Cache(false),
        1 => Told::Segment(false),
        2 => Told::Cache(true),
        _ => Told::Key(&key, draw.t),
    };
    let _text = tell(rt, alloc, both, what)?;
    Ok(())
}

// This many random requests, between which information is compared.
fn tell_many(rt: &impl Abort, alloc: Global, conf: &Conf, requests: u32) -> Result<(), Fail> {
    let mut both = Both::new(rt, alloc, conf)?;
    let mut draw = Draw::new(7);
    for _request in 0..requests {
        draw = draw.next();
        both.ask(rt, &key(draw.name() % 20), draw.count(), draw.t)?;
        tell_drawn(rt, alloc, &mut both, draw)?;
    }
    Ok(())
}

// Information between random requests, judged by the plain cache.
#[test]
fn tells_as_the_plain_cache(rt: HostRuntime) -> Result<(), Fail> {
    tell_many(&rt, rt.alloc(), &shape(1_024, 3), 1_000)?;
    // Words, slots, segments and requests.
    for [words, slots, count, requests] in [
        [1_024, 32, 2, 500],
        [65_536, 32, 2, 50],
        [1_032, 32, 4, 500],
        [2_176, 2, 64, 200],
        [1_152, 2, 64, 200],
    ] {
        let conf = segments(words, slots, count);
        tell_many(&rt, rt.alloc(), &conf, requests)?;
    }
    Ok(())
}

// Two segments of 512 words: each has gaps of its own, given by their place in it, and the largest
// block is as long as a segment.
#[test]
fn tells_each_segment(rt: HostRuntime) -> Result<(), Fail> {
    const EMPTY: &[Text] = &[
        (
            Told::Segment(false),
            &[
                "a:4:{s:7:\"num_seg\";i:2;s:8:\"seg_size\";i:4096;s:9:\"avail_mem\";i:7936;",
                "s:11:\"block_lists\";a:2:{i:0;a:1:{i:0;a:2:{s:4:\"size\";i:3840;",
                "s:6:\"offset\";i:256;}}i:1;a:1:{i:0;a:2:{s:4:\"size\";i:4096;",
                "s:6:\"offset\";i:0;}}}}",
            ],
        ),
        (
            Told::Segment(true),
            &["a:3:{s:7:\"num_seg\";i:2;s:8:\"seg_size\";i:4096;s:9:\"avail_mem\";i:7936;}"],
        ),
    ];
    const FULL: &[Text] = &[(
        Told::Segment(false),
        &[
            "a:4:{s:7:\"num_seg\";i:2;s:8:\"seg_size\";i:4096;s:9:\"avail_mem\";i:0;",
            "s:11:\"block_lists\";a:2:{i:0;a:0:{}i:1;a:0:{}}}",
        ],
    )];
    let two = segments(1_024, 32, 2);
    told_after(&rt, rt.alloc(), &two, &[], EMPTY)?;
    told_after(
        &rt,
        rt.alloc(),
        &two,
        &[
            (0, b"a", Act::Text(3_985, 0), NO),
            (0, b"a", Act::Text(3_984, 0), YES),
            (0, b"b", Act::Text(3_728, 0), YES),
            (0, b"a", Act::Exists, YES),
        ],
        FULL,
    )
}

// Two segments of 34 words, of which two are slots. Twice 16 words are free on either side of the
// border: a row of 16 fits there, and for one of 18 all rows have to be dropped.
#[test]
fn finds_no_room_over_a_border(rt: HostRuntime) -> Result<(), Fail> {
    const APART: &[Text] = &[(
        Told::Segment(false),
        &[
            "a:4:{s:7:\"num_seg\";i:2;s:8:\"seg_size\";i:272;s:9:\"avail_mem\";i:272;",
            "s:11:\"block_lists\";a:2:{i:0;a:1:{i:0;a:2:{s:4:\"size\";i:128;",
            "s:6:\"offset\";i:144;}}i:1;a:2:{i:0;a:2:{s:4:\"size\";i:128;s:6:\"offset\";i:0;}",
            "i:1;a:2:{s:4:\"size\";i:16;s:6:\"offset\";i:256;}}}}",
        ],
    )];
    const ALONE: &[Text] = &[
        (
            Told::Cache(true),
            &[
                "a:8:{s:9:\"num_slots\";i:2;s:3:\"ttl\";i:0;s:8:\"num_hits\";i:0;",
                "s:10:\"num_misses\";i:0;s:11:\"num_inserts\";i:1;s:11:\"num_entries\";i:1;",
                "s:8:\"expunges\";i:1;s:8:\"mem_size\";i:144;}",
            ],
        ),
        (
            Told::Segment(false),
            &[
                "a:4:{s:7:\"num_seg\";i:2;s:8:\"seg_size\";i:272;s:9:\"avail_mem\";i:384;",
                "s:11:\"block_lists\";a:2:{i:0;a:1:{i:0;a:2:{s:4:\"size\";i:112;",
                "s:6:\"offset\";i:160;}}i:1;a:1:{i:0;a:2:{s:4:\"size\";i:272;",
                "s:6:\"offset\";i:0;}}}}",
            ],
        ),
    ];
    const ROWS: &[Row<'static>] = &[
        (0, b"a", Act::Put(1, 0), YES),
        (0, b"b", Act::Put(1, 0), YES),
        (0, b"c", Act::Put(1, 0), YES),
        (0, b"d", Act::Put(1, 0), YES),
        (0, b"b", Act::Delete, YES),
        (0, b"c", Act::Delete, YES),
    ];
    const MORE: &[Row<'static>] = &[
        (0, b"e", Act::Text(16, 0), YES),
        (0, b"a", Act::Exists, YES),
        (0, b"e", Act::Delete, YES),
        (0, b"e", Act::Text(32, 0), YES),
        (0, b"a", Act::Exists, NO),
    ];
    let mut both = Both::new(&rt, rt.alloc(), &segments(68, 2, 2))?;
    play(&rt, &mut both, ROWS)?;
    tell_all(&rt, rt.alloc(), &mut both, APART)?;
    play(&rt, &mut both, MORE)?;
    tell_all(&rt, rt.alloc(), &mut both, ALONE)
}

// With a row in the cache, a text one byte longer than the longest is not stored, and the row
// stays. The longest is stored, and the row stays if that is in a segment without it.
fn take_the_longest(
    rt: &impl Abort,
    alloc: Global,
    conf: &Conf,
    bytes: usize,
    stays: Option<i64>,
) -> Result<(), Fail> {
    let mut both = Both::new(rt, alloc, conf)?;
    let rows = [
        (0, b"a".as_slice(), Act::Put(1, 0), YES),
        (0, b"b", Act::Text(bytes.wrapping_add(1), 0), NO),
        (0, b"a", Act::Exists, YES),
        (0, b"b", Act::Text(bytes, 0), YES),
        (0, b"a", Act::Exists, stays),
        (0, b"b", Act::Exists, YES),
    ];
    play(rt, &mut both, rows.as_slice())
}

#[test]
fn takes_the_longest_text(rt: HostRuntime) -> Result<(), Fail> {
    // Words, slots and segments.
    const LONGEST: [([u32; 3], usize, Option<i64>); 8] = [
        ([512, 32, 1], 3_728, NO),
        ([1_024, 32, 2], 3_984, YES),
        ([68, 2, 2], 160, YES),
        ([132, 2, 2], 416, YES),
        ([516, 2, 2], 1_952, YES),
        ([2_176, 2, 64], 160, YES),
        ([2_048, 2, 64], 144, YES),
        ([1_152, 2, 64], 32, YES),
    ];
    for ([words, slots, count], bytes, stays) in LONGEST {
        let conf = segments(words, slots, count);
        take_the_longest(&rt, rt.alloc(), &conf, bytes, stays)?;
    }
    Ok(())
}
