//! Requests to a cache of which blocks are held, and to the plain cache.

ghost use Rattle.std.specs.Prelude.{◌≡◌, false, IfOk};
ghost use Rattle.apcu_model.specs.Sequential.{is_iteration};

use crate::asking::{Act, NO, YES, number_in, request_of, segments, shape};
use crate::held::{Copies, Copy, Held};
use crate::info_draws::{Draw, key};
use apcu_model::{Conf, Request};
use php_graph::Bytes;
use plain_cache::Plain;
use std::alloc::{AllocError, Global};
use std::process::Abort;
use std::test::Fail;

// Nothing is held.
fn no_copies(alloc: Global) -> Result<Copies, AllocError> {
    let first = Copy {
        key: Bytes::of(alloc, &key(0))?,
        at: 0,
    };
    let second = Copy {
        key: Bytes::of(alloc, &key(0))?,
        at: 0,
    };
    Ok(Copies { first, second })
}

// The row of the key, held from the next event on while it exists.
fn held_row(alloc: Global, held: &mut Held, name: u8) -> Result<Copy, AllocError> {
    let key = Bytes::of(alloc, &key(name))?;
    let at = held.place_of(&key);
    Ok(Copy { key, at })
}

fn request_under(rt: &impl Abort, alloc: Global, name: u8, act: Act) -> Result<Request, Fail>
    ensures { IfOk result (λ request. is_iteration request ≡ false) }
{
    let key = Bytes::of(alloc, &key(name))?;
    request_of(rt, alloc, key, act)
}

// The reply in an event with this mask.
fn answer_held(
    rt: &impl Abort,
    alloc: Global,
    held: &mut Held,
    copies: &Copies,
    mask: u64,
    step: (u64, u8, Act),
) -> Result<Option<i64>, Fail> {
    let (t, name, act) = step;
    let request = request_under(rt, alloc, name, act)?;
    Ok(held.event(copies, mask, &request, t))
}

fn answer_plainly(
    rt: &impl Abort,
    alloc: Global,
    plain: &mut Plain,
    step: (u64, u8, Act),
) -> Result<Option<i64>, Fail> {
    let (t, name, act) = step;
    let request = request_under(rt, alloc, name, act)?;
    let reply = plain.ask(&request, t)?;
    Ok(number_in(&reply))
}

// Makes a request at a moment under a key to both caches. They reply the same, and count the same.
fn both_held(
    rt: &impl Abort,
    alloc: Global,
    held: &mut Held,
    plain: &mut Plain,
    copies: &Copies,
    mask: u64,
    step: (u64, u8, Act),
) -> Result<(), Fail> {
    let answer = answer_held(rt, alloc, held, copies, mask, step)?;
    let wanted = answer_plainly(rt, alloc, plain, step)?;
    assert_eq!(rt; answer, wanted);
    assert_eq!(rt; held.counts(), plain.counts());
    Ok(())
}

// From time to time the row of this key is held for a worker.
fn take_up(
    alloc: Global,
    held: &mut Held,
    copies: &mut Copies,
    name: u8,
    draw: u64,
) -> Result<(), AllocError> {
    match (draw >> 40) % 8 {
        0 => copies.first = held_row(alloc, held, name)?,
        1 => copies.second = held_row(alloc, held, name)?,
        _ => {}
    }
    Ok(())
}

// This many random requests.
fn ask_held(
    rt: &impl Abort,
    alloc: Global,
    held: &mut Held,
    plain: &mut Plain,
    copies: &mut Copies,
    limit: u32,
    requests: u32,
) -> Result<u64, Fail> {
    let mut draw = Draw::new(u64::from(limit).wrapping_add(11));
    for _request in 0..requests {
        draw = draw.next();
        let name = draw.name();
        take_up(alloc, held, copies, name, draw.bits)?;
        let step = (draw.t, name, draw.act());
        both_held(rt, alloc, held, plain, copies, (draw.bits >> 44) % 4, step)?;
    }
    Ok(draw.t)
}

// A cache of this shape, which is a usable one.
fn held_of(rt: &impl Abort, alloc: Global, conf: &Conf) -> Result<Held, Fail> {
    assert!(rt; conf.usable());
    Ok(Held::new(alloc, conf)?)
}

// A plain one.
fn plain_of(rt: &impl Abort, alloc: Global, conf: &Conf) -> Plain {
    assert!(rt; conf.usable());
    Plain::new(alloc, conf)
}

// This many random requests to both caches, which are never short of room, so that what is held
// changes no reply. The mask of each has some of two workers, for which blocks are held in turn. In
// the end each key has the same value in both.
fn many_held(rt: &impl Abort, alloc: Global, conf: &Conf, requests: u32) -> Result<(), Fail> {
    let mut held = held_of(rt, alloc, conf)?;
    let mut plain = plain_of(rt, alloc, conf);
    let mut copies = no_copies(alloc)?;
    let t = ask_held(
        rt,
        alloc,
        &mut held,
        &mut plain,
        &mut copies,
        conf.ttl,
        requests,
    )?;
    for name in 0..40u8 {
        let step = (t, name, Act::Fetch);
        both_held(rt, alloc, &mut held, &mut plain, &copies, 0, step)?;
    }
    Ok(())
}

// Requests while blocks are held for workers, judged by the plain cache.
#[test]
fn answers_as_the_plain_cache_with_windows(rt: HostRuntime) -> Result<(), Fail> {
    many_held(&rt, rt.alloc(), &shape(65_536, 0), 2_000)?;
    many_held(&rt, rt.alloc(), &shape(65_536, 3), 2_000)?;
    many_held(&rt, rt.alloc(), &segments(262_144, 32, 64), 2_000)
}

// Each is made in an event with this mask, and has its reply.
fn play_held(
    rt: &impl Abort,
    alloc: Global,
    held: &mut Held,
    copies: &Copies,
    rows: &[(u64, u8, Act, Option<i64>)],
) -> Result<(), Fail> {
    for (mask, name, act, wanted) in rows {
        let answer = answer_held(rt, alloc, held, copies, *mask, (100, *name, *act))?;
        assert_eq!(rt; answer, *wanted);
    }
    Ok(())
}

// A removed row keeps its block while it is held, and a store that needs the room waits for it.
#[test]
fn keeps_what_is_held(rt: HostRuntime) -> Result<(), Fail> {
    let alloc = rt.alloc();
    let mut held = held_of(&rt, alloc, &shape(512, 0))?;
    let mut copies = no_copies(alloc)?;
    play_held(
        &rt,
        alloc,
        &mut held,
        &copies,
        &[(0, 1, Act::Text(2_000, 0), YES)],
    )?;
    copies.second = held_row(alloc, &mut held, 1)?;
    assert_eq!(rt; copies.second.at, 32);
    play_held(&rt, alloc, &mut held, &copies, &[(2, 1, Act::Delete, YES)])?;
    assert_eq!(rt; held.first_removed(), 32);
    let longer = Act::Text(3_728, 0);
    play_held(
        &rt,
        alloc,
        &mut held,
        &copies,
        &[(2, 2, longer, NO), (0, 2, longer, YES)],
    )?;
    assert_eq!(rt; held.first_removed(), 0);
    Ok(())
}

// A request in an event with this mask, its reply, and the place of the row of the key after it; 0
// for none.
type Placed = (u64, u8, Act, Option<i64>, u32);

fn play_placed(
    rt: &impl Abort,
    alloc: Global,
    held: &mut Held,
    copies: &Copies,
    rows: &[Placed],
) -> Result<(), Fail> {
    for (mask, name, act, wanted, place) in rows {
        let answer = answer_held(rt, alloc, held, copies, *mask, (100, *name, *act))?;
        assert_eq!(rt; answer, *wanted);
        let key = Bytes::of(alloc, &key(*name))?;
        assert_eq!(rt; held.place_of(&key), *place);
    }
    Ok(())
}

// The rows of these two keys, held from the next event on.
fn hold_both(alloc: Global, held: &mut Held, first: u8, second: u8) -> Result<Copies, AllocError> {
    Ok(Copies {
        first: held_row(alloc, held, first)?,
        second: held_row(alloc, held, second)?,
    })
}

// Two removed rows are on either side of a border, and are held. What becomes free there is two
// gaps, also if all rows are dropped and if both are released at once.
#[test]
fn keeps_what_is_held_beside_a_border(rt: HostRuntime) -> Result<(), Fail> {
    const FULL: &[Placed] = &[
        (0, 1, Act::Text(1_728, 0), YES, 32),
        (0, 2, Act::Text(1_888, 0), YES, 262),
        (0, 3, Act::Text(1_968, 0), YES, 512),
        (0, 4, Act::Text(1_904, 0), YES, 772),
    ];
    const HELD: &[Placed] = &[
        (3, 2, Act::Delete, YES, 0),
        (3, 3, Act::Delete, YES, 0),
        (3, 1, Act::Delete, YES, 0),
        (3, 5, Act::Text(1_984, 0), NO, 0),
        (1, 5, Act::Text(3_985, 0), NO, 0),
        (1, 5, Act::Text(3_984, 0), YES, 512),
        (1, 6, Act::Text(1_728, 0), YES, 32),
        (1, 7, Act::Text(8, 0), YES, 32),
        (0, 8, Act::Text(3_984, 0), YES, 512),
        (0, 9, Act::Text(3_600, 0), YES, 48),
        (0, 7, Act::Exists, YES, 32),
    ];
    const AGAIN: &[Placed] = &[
        (0, 0, Act::Clear, YES, 0),
        (0, 1, Act::Text(1_728, 0), YES, 32),
        (0, 2, Act::Text(1_888, 0), YES, 262),
        (0, 3, Act::Text(1_968, 0), YES, 512),
        (0, 4, Act::Text(1_904, 0), YES, 772),
    ];
    const LET_GO: &[Placed] = &[
        (3, 2, Act::Delete, YES, 0),
        (3, 3, Act::Delete, YES, 0),
        (0, 5, Act::Text(1_968, 0), YES, 512),
        (0, 6, Act::Text(1_888, 0), YES, 262),
        (0, 1, Act::Exists, YES, 32),
        (0, 4, Act::Exists, YES, 772),
    ];
    let alloc = rt.alloc();
    let mut held = held_of(&rt, alloc, &segments(1_024, 32, 2))?;
    play_then_hold(&rt, alloc, &mut held, FULL, HELD)?;
    play_then_hold(&rt, alloc, &mut held, AGAIN, LET_GO)
}

// Some rows, with nothing held, and then others, while those of the keys 2 and 3 are held.
fn play_then_hold(
    rt: &impl Abort,
    alloc: Global,
    held: &mut Held,
    before: &[Placed],
    then: &[Placed],
) -> Result<(), Fail> {
    let none = no_copies(alloc)?;
    play_placed(rt, alloc, held, &none, before)?;
    let copies = hold_both(alloc, held, 2, 3)?;
    play_placed(rt, alloc, held, &copies, then)
}
