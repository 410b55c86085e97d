//! Caches after a few stores and deletions, with the map of each.

ghost use Rattle.apcu_model.specs.Conf.{IsUsable};

use crate::meeting::{CONF, letters};
use apcu_model::{Conf, StoreAnswer};
use cache_core::Core;
use late_words::LateWords;
use max_tree::MaxRow;
use notation::ByteOut;
use php_graph::Graph;
use seg_report::{fits, map_text};
use seg_words::WordsIn;
use std::alloc::{AllocError, Global};
use std::marker::Model;
use std::process::Abort;
use std::test::Fail;

// A cache over words in memory. Contracts see the cache.
#[derive(Drop)]
struct Small {
    words: LateWords,
    core: Core,
}

impl Model for Small {
    ghost use Rattle.apcu_model.specs.Cache.{Cache};
    ghost use Rattle.cache_core.specs.CoreCache.{cache_of, CacheStands};

    ghost Value = { Cache };

    ghost view = { λ s. cache_of s.core };

    ghost invariant = { λ s. CacheStands ⟦<LateWords as WordsIn>⟧ s.core s.words };
}

impl Small {
    fn new(alloc: Global, conf: &Conf) -> Result<Small, AllocError>
        requires { IsUsable conf.now }
    {
        let mut words = LateWords::new(alloc, conf.words)?;
        let gaps = MaxRow::new(alloc, conf.words as usize / 4 + 1)?;
        let core = Core::format(&mut words, conf, gaps);
        Ok(Small { words, core })
    }

    // Stores a value under a key of one letter.
    fn store(&mut self, key: u8, value: &Graph) -> StoreAnswer {
        self.core.store(&mut self.words, &[key], value, 0, false, 0)
    }

    fn delete(&mut self, key: u8) -> bool {
        self.core.delete(&mut self.words, &[key], 0)
    }

    fn map(&mut self, out: &mut ByteOut) -> Result<(), AllocError> {
        map_text(&mut self.core, &mut self.words, out)
    }

    fn fits_of_16(&mut self) -> u32 {
        fits(&mut self.core, &mut self.words, 16)
    }
}

// An action under a key of one letter.
#[derive(Clone, Copy)]
enum Act {
    // stores a string of this many bytes
    Put(u8, usize),
    Delete(u8),
}

fn play(rt: &impl Abort, alloc: Global, small: &mut Small, acts: &[Act]) -> Result<(), Fail> {
    for act in acts {
        match *act {
            Act::Put(key, len) => {
                let value = letters(rt, alloc, len)?;
                assert!(rt; small.store(key, &value) == StoreAnswer::Stored);
            }
            Act::Delete(key) => assert!(rt; small.delete(key)),
        }
    }
    Ok(())
}

// The map after these actions, and how many blocks of 16 words fit.
fn tells(
    rt: &impl Abort,
    alloc: Global,
    conf: &Conf,
    acts: &[Act],
    map: &str,
    fits: u32,
) -> Result<(), Fail> {
    assert!(rt; conf.usable());
    let mut small = Small::new(alloc, conf)?;
    play(rt, alloc, &mut small, acts)?;
    let mut out = ByteOut::new(alloc);
    small.map(&mut out)?;
    assert!(rt; out.as_slice() == map.as_bytes());
    assert_eq!(rt; small.fits_of_16(), fits);
    Ok(())
}

#[test]
fn an_empty_cache_is_one_gap(rt: HostRuntime) -> Result<(), Fail> {
    let map = "map\nfree 32 480\nfree words 480\nlargest 480\nruns 1\nfits 16 30\nfits 32 15\n\
        fits 64 7\nfits 128 3\nfits 256 1\n";
    tells(&rt, rt.alloc(), &CONF, &[], map, 30)
}

#[test]
fn a_row_and_a_gap(rt: HostRuntime) -> Result<(), Fail> {
    let map = "map\nrow 32 16 1 s:1:\"a\";\nfree 48 464\nfree words 464\nlargest 464\nruns 1\n\
        fits 16 29\nfits 32 14\nfits 64 7\nfits 128 3\nfits 256 1\n";
    tells(&rt, rt.alloc(), &CONF, &[Act::Put(b'a', 1)], map, 29)
}

#[test]
fn rows_behind_a_gap(rt: HostRuntime) -> Result<(), Fail> {
    const ACTS: &[Act] = &[
        Act::Put(b'a', 1168),
        Act::Put(b'b', 1168),
        Act::Put(b'c', 1168),
        Act::Delete(b'a'),
    ];
    let map = "map\nfree 32 160\nrow 192 160 2 s:1:\"b\";\nrow 352 160 3 s:1:\"c\";\n\
        free words 160\nlargest 160\nruns 1\nfits 16 10\nfits 32 5\nfits 64 2\nfits 128 1\n";
    tells(&rt, rt.alloc(), &CONF, ACTS, map, 10)
}

#[test]
fn a_full_cache_has_no_line_of_fits(rt: HostRuntime) -> Result<(), Fail> {
    const ACTS: &[Act] = &[
        Act::Put(b'a', 1168),
        Act::Put(b'7', 1168),
        Act::Put(b'c', 1168),
    ];
    let map = "map\nrow 32 160 1 s:1:\"a\";\nrow 192 160 2 i:7;\nrow 352 160 3 s:1:\"c\";\n\
        free words 0\nlargest 0\nruns 0\n";
    tells(&rt, rt.alloc(), &CONF, ACTS, map, 0)
}

// A run ends at a border of segments, and what is left of each is counted separately.
#[test]
fn two_segments_have_two_runs(rt: HostRuntime) -> Result<(), Fail> {
    const TWO: Conf = Conf {
        words: 112,
        slots: 32,
        ttl: 0,
        segments: 2,
    };
    let map = "map\nfree 32 24\nfree 56 56\nfree words 80\nlargest 56\nruns 2\nfits 16 4\n\
        fits 32 1\n";
    tells(&rt, rt.alloc(), &TWO, &[], map, 4)
}
