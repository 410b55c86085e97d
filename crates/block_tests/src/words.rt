//! Free words, segments and their layout.

ghost use Rattle.std.specs.Prelude.{◌≡◌, ◌≢◌, ℕ, ◌+◌, ◌%◌, ◌<◌, ◌≤◌, length, slice_index, []};
ghost use Rattle.std.specs.Prelude.{false};
ghost use Rattle.seg_words.specs.Windows.{has, is_named};
ghost use Rattle.seg_words.specs.Blocks.{IsTold};

use late_words::LateWords;
use seg_words::{
    Extent, HeldWords, Segment, VecWords, WordsIn, first_fit, fit_laws, gap_laws, probe_laws,
    words_in,
};
use std::process::Abort;
use std::test::Fail;

// A search for words from one place up to another, and the lowest place.
#[derive(Clone, Copy, Drop)]
struct Fit<'a> {
    from: u32,
    to: u32,
    n: u32,
    extents: &'a [Extent],
    place: Option<u32>,
}

const fn extent(place: u32, size: u32) -> Extent {
    Extent { place, size }
}

// The places are found, with segments of this many words.
fn find_each<A: Abort>(rt: &A, piece: u32, fits: &[Fit<'_>])
    requires { piece % 2 ≡ 0 }
{
    for fit in fits {
        let place = first_fit(fit.from, fit.to, piece, fit.n, fit.extents);
        assert_eq!(rt; place, fit.place);
    }
}

#[test]
fn finds_the_least_place(rt: HostRuntime) {
    let rising = [extent(32, 8), extent(40, 8), extent(48, 16)];
    let mixed = [extent(9, 2), extent(2, 3), extent(5, 0)];
    let fits = [
        Fit {
            from: 32,
            to: 64,
            n: 2,
            extents: &[],
            place: Some(32),
        },
        Fit {
            from: 32,
            to: 64,
            n: 8,
            extents: &rising[..1],
            place: Some(40),
        },
        Fit {
            from: 32,
            to: 64,
            n: 2,
            extents: &rising,
            place: None,
        },
        Fit {
            from: 32,
            to: 64,
            n: 8,
            extents: &rising[1..],
            place: Some(32),
        },
        Fit {
            from: 32,
            to: 64,
            n: 10,
            extents: &rising[1..],
            place: None,
        },
        Fit {
            from: 1,
            to: 100,
            n: 2,
            extents: &mixed,
            place: Some(6),
        },
        Fit {
            from: 1,
            to: 100,
            n: 4,
            extents: &mixed,
            place: Some(12),
        },
        Fit {
            from: 1,
            to: 15,
            n: 4,
            extents: &mixed,
            place: None,
        },
        Fit {
            from: 7,
            to: 9,
            n: 0,
            extents: &mixed,
            place: Some(8),
        },
        Fit {
            from: u32::MAX,
            to: u32::MAX,
            n: 0,
            extents: &mixed,
            place: None,
        },
    ];
    find_each(&rt, 0, &fits);
}

// Two segments of 34 words, and one of almost all.
#[test]
fn finds_the_least_place_in_one_segment(rt: HostRuntime) {
    let front = [extent(2, 2)];
    let apart = [extent(2, 14), extent(50, 2)];
    let ends = [extent(2, 30), extent(34, 32)];
    let fits = [
        Fit {
            from: 2,
            to: 68,
            n: 32,
            extents: &[],
            place: Some(2),
        },
        Fit {
            from: 2,
            to: 68,
            n: 34,
            extents: &[],
            place: Some(34),
        },
        Fit {
            from: 2,
            to: 68,
            n: 36,
            extents: &[],
            place: None,
        },
        Fit {
            from: 2,
            to: 68,
            n: 32,
            extents: &front,
            place: Some(34),
        },
        Fit {
            from: 2,
            to: 68,
            n: 18,
            extents: &apart,
            place: Some(16),
        },
        Fit {
            from: 2,
            to: 68,
            n: 20,
            extents: &apart,
            place: None,
        },
        Fit {
            from: 2,
            to: 68,
            n: 2,
            extents: &ends,
            place: Some(32),
        },
        Fit {
            from: 33,
            to: 68,
            n: 2,
            extents: &ends,
            place: Some(66),
        },
        Fit {
            from: 2,
            to: 68,
            n: 4,
            extents: &ends,
            place: None,
        },
        Fit {
            from: 33,
            to: 34,
            n: 0,
            extents: &ends,
            place: Some(34),
        },
    ];
    find_each(&rt, 34, &fits);
    let last = [Fit {
        from: 4294967290,
        to: u32::MAX,
        n: 4,
        extents: &front,
        place: Some(4294967290),
    }];
    find_each(&rt, 4294967294, &last);
    let border = [Fit {
        from: 4294967290,
        to: u32::MAX,
        n: 4,
        extents: &front,
        place: None,
    }];
    find_each(&rt, 4294967292, &border);
}

#[test]
fn counts_words_of_bytes(rt: HostRuntime) {
    for (bytes, words) in [(0, 0), (1, 1), (8, 1), (9, 2), (u32::MAX, 1 << 29)] {
        assert_eq!(rt; words_in(bytes), words);
    }
}

// Writes the word `w` into the block at `at`, if no worker copies anything.
fn give_up<S: Segment>(seg: &mut S, at: u32, w: u64) -> bool
    requires block { at + 12 ≤ length (S.words seg.old) }
    requires clear { (place : ℕ) → is_named (S.aside seg.old).windows place ≡ false }
    requires count { slice_index (S.words seg.old) (at + 11) ≡ 0 }
    requires unrefused { has at (S.aside seg.old).refused ≡ false }
    ensures { slice_index (S.words seg.new) at ≡ w }
{
    if seg.mask() == 0 {
        seg.store(at, w);
        return seg.load(at + 11) == 0;
    }
    seg.store(at, w);
    seg.probe(at)
}

#[test]
fn stores_and_loads(rt: HostRuntime) -> Result<(), Fail> {
    let mut words = VecWords::new(rt.alloc(), 14)?;
    assert_eq!(rt; words.len(), 14);
    assert!(rt; words.probe(2));
    words.store(1, 7);
    words.store(12, u64::MAX);
    let told = (words.load(0), words.load(1), words.load(12));
    assert_eq!(rt; told, (0, 7, u64::MAX));
    let mut again = VecWords::from_words(words.into_words());
    assert_eq!(rt; (again.len(), again.load(1), again.mask()), (14, 7, 0));
    Ok(())
}

// The words between are zeros, and so are those after them.
#[test]
fn late_words_are_zeros_first(rt: HostRuntime) -> Result<(), Fail> {
    let mut words = LateWords::new(rt.alloc(), 14)?;
    assert_eq!(rt; (words.len(), words.load(13), words.mask()), (14, 0, 0));
    words.store(9, u64::MAX);
    words.store(1, 7);
    assert!(rt; words.probe(2));
    let told = (words.load(0), words.load(1), words.load(8));
    assert_eq!(rt; told, (0, 7, 0));
    let behind = (words.load(9), words.load(10), words.load(13));
    assert_eq!(rt; behind, (u64::MAX, 0, 0));
    Ok(())
}

// Eight words from a place on, as any row of words returns them.
fn eight_from<W: WordsIn>(row: &mut W, i: u32) -> [u64; 8]
    requires { i + 8 ≤ length (W.words row.old) }
{
    row.load_eight(i)
}

#[test]
fn loads_eight_words(rt: HostRuntime) -> Result<(), Fail> {
    let words = Vec::from_array(rt.alloc(), [3u64, 1, 4, 1, 5, 9, 2, 6, 5])?;
    let mut row = VecWords::from_words(words);
    let first = row.load_eight(0);
    assert_eq!(rt; first, [3, 1, 4, 1, 5, 9, 2, 6]);
    let last = eight_from(&mut row, 1);
    assert_eq!(rt; last, [1, 4, 1, 5, 9, 2, 6, 5]);
    Ok(())
}

// Words that are written already, and words that are not yet.
#[test]
fn stores_eight_words(rt: HostRuntime) -> Result<(), Fail> {
    let mut row = VecWords::new(rt.alloc(), 10)?;
    row.store_eight(1, &[3, 1, 4, 1, 5, 9, 2, 6]);
    let told = (row.load(0), row.load(1), row.load(8), row.load(9));
    assert_eq!(rt; told, (0, 3, 6, 0));
    let mut late = LateWords::new(rt.alloc(), 18)?;
    late.store(9, 5);
    late.store_eight(1, &[3, 1, 4, 1, 5, 9, 2, 6]);
    late.store_eight(10, &[2, 7, 1, 8, 2, 8, 1, 8]);
    let first = (late.load(0), late.load(1), late.load(8), late.load(9));
    assert_eq!(rt; first, (0, 3, 6, 5));
    assert_eq!(rt; (late.load(10), late.load(17)), (2, 8));
    Ok(())
}

#[test]
fn serves_by_its_bound(rt: HostRuntime) -> Result<(), Fail> {
    let mut words = VecWords::new(rt.alloc(), 14)?;
    assert!(rt; give_up(&mut words, 2, 9));
    assert_eq!(rt; words.load(2), 9);
    let mut held = HeldWords::new(rt.alloc(), 14)?;
    assert!(rt; give_up(&mut held, 2, 9));
    assert_eq!(rt; (held.len(), held.load(2), held.mask()), (14, 9, 0));
    Ok(())
}

// An event: what is held for one worker before it, the workers found, and two places with the
// results of their probes.
#[derive(Clone, Copy, Drop)]
struct Event {
    worker: u32,
    at: u32,
    mask: u64,
    places: (u32, u32),
    told: (bool, bool),
}

// Probes the block at `at`, whose pin count has to be 0.
fn probe_at<A: Abort>(rt: &A, words: &mut HeldWords, at: u32) -> bool
    requires { has at (⟦<HeldWords as WordsIn>⟧.aside words.old).refused ≡ false }
    ensures { (b : ℕ) → b ≢ at → has b (⟦<HeldWords as WordsIn>⟧.aside words.old).refused ≡ false
        → has b (⟦<HeldWords as WordsIn>⟧.aside words.new).refused ≡ false }
{
    assert!(rt; at < 100);
    assert_eq!(rt; words.len(), 112);
    let count = words.load(at + 11);
    assert_eq!(rt; count, 0);
    words.probe(at)
}

fn probe_both<A: Abort>(rt: &A, words: &mut HeldWords, event: &Event) -> (bool, bool) {
    let (one, other) = event.places;
    assert!(rt; other != one);
    words.begin(event.mask);
    let first = probe_at(rt, words, one);
    (first, probe_at(rt, words, other))
}

#[test]
fn blocks_are_held_for_the_workers_met(rt: HostRuntime) -> Result<(), Fail> {
    let mut words = HeldWords::new(rt.alloc(), 112)?;
    let all = u64::MAX;
    let events = [
        Event {
            worker: 0,
            at: 16,
            mask: 0,
            places: (16, 32),
            told: (true, true),
        },
        Event {
            worker: 3,
            at: 32,
            mask: 1,
            places: (16, 32),
            told: (false, true),
        },
        Event {
            worker: 5,
            at: 16,
            mask: 40,
            places: (32, 16),
            told: (false, false),
        },
        Event {
            worker: 0,
            at: 0,
            mask: 1,
            places: (16, 0),
            told: (true, true),
        },
        Event {
            worker: 63,
            at: 90,
            mask: all,
            places: (90, 16),
            told: (false, false),
        },
        Event {
            worker: 63,
            at: 91,
            mask: 1 << 63,
            places: (90, 91),
            told: (true, false),
        },
    ];
    for event in &events {
        assert!(rt; event.worker < 64);
        words.hold(event.worker, event.at);
        let told = probe_both(&rt, &mut words, event);
        assert_eq!(rt; (told, words.mask()), (event.told, event.mask));
    }
    Ok(())
}

#[test]
fn states_its_laws() {
    gap_laws();
    fit_laws();
    probe_laws();
}
