//! Random requests of several workers, in events with empty masks, judged by the plain cache.

use crate::mark_both::Both;
use crate::mark_draws::{act_of, next};
use crate::mark_requests::Act;
use apcu_model::Conf;
use std::alloc::Global;
use std::process::Abort;
use std::test::Fail;

fn shape(words: u32, ttl: u32, segments: u32) -> Conf {
    Conf {
        words,
        slots: 32,
        ttl,
        segments,
    }
}

// Each kind of request that both support, once.
const KINDS: [Act; 14] = [
    Act::Text(100, 0),
    Act::Put(7, 5),
    Act::Add(8),
    Act::Fetch,
    Act::Exists,
    Act::Inc(3, 0),
    Act::Cas(10, 11),
    Act::KeyInfo,
    Act::CacheInfo(false),
    Act::SmaInfo(false),
    Act::Delete,
    Act::Entry(5, 0),
    Act::Clear,
    Act::Retire,
];

#[test]
fn answers_each_kind(rt: HostRuntime) -> Result<(), Fail> {
    let mut both = Both::new(&rt, rt.alloc(), &shape(4_096, 0, 1))?;
    for act in KINDS {
        both.ask(&rt, 1, 3, act, 100)?;
    }
    Ok(())
}

// This many requests, and then all information.
fn many(rt: &impl Abort, alloc: Global, conf: &Conf, requests: u32) -> Result<(), Fail> {
    let mut both = Both::new(rt, alloc, conf)?;
    let mut bits = u64::from(conf.ttl).wrapping_add(11);
    let mut t = 100u64;
    for request in 0..requests {
        bits = next(bits);
        t = t.wrapping_add((bits >> 60) % 2);
        let name = ((bits >> 33) % 40) as u8;
        both.ask(rt, request % 5, name, act_of(bits), t)?;
    }
    both.ask(rt, 0, 0, Act::CacheInfo(false), 0)?;
    both.ask(rt, 0, 0, Act::SmaInfo(false), 0)
}

#[test]
fn mark_play_answers_as_the_plain_cache(rt: HostRuntime) -> Result<(), Fail> {
    many(&rt, rt.alloc(), &shape(4_096, 0, 1), 3_000)?;
    many(&rt, rt.alloc(), &shape(4_096, 3, 1), 3_000)?;
    many(&rt, rt.alloc(), &shape(16_384, 0, 16), 3_000)
}
