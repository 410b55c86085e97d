//! The cache over words and the plain one, with the same calls.

ghost use Rattle.std.specs.Prelude.{◌≡◌, ◌%◌, ◌≤◌};
ghost use Rattle.apcu_model.specs.Conf.{IsUsable};

use crate::calls::{Answer, Call};
use crate::draws::{Draw, Kinds};
use crate::plainly::call_plainly;
use crate::small::Small;
use crate::values::key;
use apcu_model::Conf;
use php_graph::Bytes;
use plain_cache::Plain;
use std::alloc::Global;
use std::process::Abort;
use std::test::Fail;

pub(crate) fn shape(words: u32, ttl: u32) -> Conf
    requires even { (words % 2 ≡ 0) × (512 ≤ words) × (words ≤ 65536) }
    ensures usable { IsUsable result }
    ensures words { result.words ≡ words }
{
    Conf {
        words,
        slots: 32,
        ttl,
        segments: 1,
    }
}

#[derive(Drop)]
pub(crate) struct Pair {
    alloc: Global,
    small: Small,
    plain: Plain,
}

impl Pair {
    // Caches of this many words with this ttl.
    pub(crate) fn new(alloc: Global, words: u32, ttl: u32) -> Result<Pair, Fail>
        requires even { (words % 2 ≡ 0) × (512 ≤ words) × (words ≤ 65536) }
    {
        let conf = shape(words, ttl);
        Ok(Pair {
            alloc,
            small: Small::new(alloc, &conf)?,
            plain: Plain::new(alloc, &conf),
        })
    }

    // Both do it. They return the same, and count the same.
    pub(crate) fn ask(
        &mut self,
        rt: &impl Abort,
        key: &[u8],
        call: Call,
        t: u64,
    ) -> Result<Answer, Fail> {
        assert!(rt; key.len() < 1 << 20);
        let key = Bytes::of(self.alloc, key)?;
        let answer = self.small.answer(rt, self.alloc, &key, call, t)?;
        let wanted = call_plainly(rt, self.alloc, &mut self.plain, key, call, t)?;
        assert_eq!(rt; answer, wanted);
        assert_eq!(rt; self.small.counts(), self.plain.counts());
        Ok(answer)
    }

    // The calls in turn at their times, under the keys of these numbers, with the result of both.
    pub(crate) fn play(
        &mut self,
        rt: &impl Abort,
        rows: &[(u64, u8, Call, Answer)],
    ) -> Result<(), Fail> {
        for (t, name, call, wanted) in rows {
            let answer = self.ask(rt, &key(*name), *call, *t)?;
            assert_eq!(rt; answer, *wanted);
        }
        Ok(())
    }

    // A call under each key from one number to the other, with the result of both each time.
    pub(crate) fn each(
        &mut self,
        rt: &impl Abort,
        names: (u8, u8),
        row: (u64, Call, Answer),
    ) -> Result<(), Fail> {
        let (t, call, wanted) = row;
        for name in names.0..=names.1 {
            let answer = self.ask(rt, &key(name), call, t)?;
            assert_eq!(rt; answer, wanted);
        }
        Ok(())
    }
}

// The calls in turn, in new caches of 512 words with this ttl.
pub(crate) fn play(
    rt: &impl Abort,
    alloc: Global,
    limit: u32,
    rows: &[(u64, u8, Call, Answer)],
) -> Result<(), Fail> {
    Pair::new(alloc, 512, limit)?.play(rt, rows)
}

// Thousands of random calls, in new caches of this shape.
pub(crate) fn many(
    rt: &impl Abort,
    alloc: Global,
    words: u32,
    limit: u32,
    kinds: Kinds,
) -> Result<(), Fail>
    requires even { (words % 2 ≡ 0) × (512 ≤ words) × (words ≤ 65536) }
{
    let mut pair = Pair::new(alloc, words, limit)?;
    let mut draw = Draw::new(u64::from(limit).wrapping_add(7));
    for _call in 0..2_000 {
        draw = draw.next();
        let name = draw.name(kinds);
        let call = draw.call(kinds, name);
        pair.ask(rt, &key(name), call, draw.t)?;
    }
    Ok(())
}
