//! The calls of the cache over words, and the items of its iterators.

ghost use Rattle.std.specs.Prelude.{◌≡◌, ℕ, ◌≤◌, false, length};
ghost use Rattle.apcu_model.specs.Conf.{IsUsable};
ghost use Rattle.apcu_model.specs.Levels.{most_levels};
ghost use Rattle.seg_words.specs.Windows.{has};
ghost use Rattle.cache_core.specs.CoreCache.{CacheStands};

use crate::calls::{Act, Answer, Call};
use crate::values::{Value, generator_of, told, value_of};
use apcu_iter::{chunk, chunk_delete, totals};
use apcu_model::{Chunk, Conf, Counts, Fields, Gen, List, StoreAnswer, integer};
use cache_core::{Core, Look, Scalar};
use counter_entry::{IncAnswer, cas, entry, inc};
use max_tree::MaxRow;
use php_graph::Bytes;
use row_search::Search;
use seg_words::{Segment, VecWords, WordsIn};
use std::alloc::Global;
use std::marker::Model;
use std::process::Abort;
use std::test::Fail;

fn found_by(look: Look) -> Option<i64> {
    match look {
        Look::Miss => None,
        Look::Scalar(Scalar::Int(n)) => Some(n),
        _ => Some(-1),
    }
}

fn counted(answer: IncAnswer) -> Option<i64> {
    match answer {
        IncAnswer::Value(n) => Some(n),
        IncAnswer::NotInteger | IncAnswer::NoRoom => None,
    }
}

// A call of the cache alone. A string is stored from its bytes, without a graph.
pub(crate) fn answer_of<S: Segment>(
    rt: &impl Abort,
    alloc: Global,
    core: &mut Core,
    words: &mut S,
    key: &Bytes,
    act: Act,
    t: u64,
) -> Result<Answer, Fail>
    requires stand { CacheStands S.WordsIn core.old words.old }
    requires unrefused { (b : ℕ) → has b (S.aside words.old).refused ≡ false }
    ensures stand { CacheStands S.WordsIn core.new words.new }
    ensures rest { S.rest words.new ≡ S.rest words.old }
{
    let key = key.as_slice();
    match act {
        Act::Store(Value::Text(len), ttl, exclusive) => {
            assert!(rt; len < 1 << 20);
            let bytes = vec![in alloc; b'z'; len]?;
            let answer = core.store_bytes(words, key, &bytes, ttl, exclusive, t);
            Ok(Answer::Flag(answer == StoreAnswer::Stored))
        }
        Act::Store(value, ttl, exclusive) => {
            let value = value_of(rt, alloc, value)?;
            let answer = core.store(words, key, &value, ttl, exclusive, t);
            Ok(Answer::Flag(answer == StoreAnswer::Stored))
        }
        Act::Fetch => Ok(Answer::Number(found_by(core.look(words, key, t)))),
        Act::Exists => Ok(Answer::Flag(core.exists(words, key, t))),
        Act::Delete => Ok(Answer::Flag(core.delete(words, key, t))),
        Act::Clear => {
            core.clear(words, t);
            Ok(Answer::Flag(true))
        }
    }
}

// The moment at which a row of the integer 1 is stored.
const STORED: u64 = 100;

// A cache over words in memory. Contracts see the cache.
#[derive(Drop)]
pub(crate) struct Small {
    words: VecWords,
    core: Core,
}

impl Model for Small {
    ghost use Rattle.apcu_model.specs.Cache.{Cache};
    ghost use Rattle.cache_core.specs.CoreCache.{cache_of, CacheStands};

    ghost Value = { Cache };

    ghost view = { λ s. cache_of s.core };

    ghost invariant = { λ s. CacheStands ⟦<VecWords as WordsIn>⟧ s.core s.words };
}

impl Small {
    pub(crate) fn new(alloc: Global, conf: &Conf) -> Result<Small, Fail>
        requires { IsUsable conf.now }
    {
        let mut words = VecWords::new(alloc, conf.words)?;
        let gaps = MaxRow::new(alloc, conf.words as usize / 4 + 1)?;
        let core = Core::format(&mut words, conf, gaps);
        Ok(Small { words, core })
    }

    pub(crate) fn counts(&self) -> Counts {
        self.core.counts()
    }

    fn count(&mut self, alloc: Global, key: &Bytes, how: (i64, u32), t: u64) -> Option<i64> {
        let (step, ttl) = how;
        let key = key.as_slice();
        counted(inc(alloc, &mut self.core, &mut self.words, key, step, ttl, t))
    }

    fn swap(&mut self, key: &Bytes, expect: i64, set: i64, t: u64) -> bool {
        let key = key.as_slice();
        cas(&mut self.core, &mut self.words, key, expect, set, t)
    }

    fn give(&mut self, alloc: Global, generator: &Gen, t: u64) -> Result<Answer, Fail>
        requires { length generator.now.levels ≤ most_levels }
    {
        let (value, fate) = entry(alloc, &mut self.core, &mut self.words, generator, t)?;
        Ok(Answer::Gave(told(&value), fate))
    }

    pub(crate) fn answer(
        &mut self,
        rt: &impl Abort,
        alloc: Global,
        key: &Bytes,
        call: Call,
        t: u64,
    ) -> Result<Answer, Fail> {
        match call {
            Call::Core(act) => {
                answer_of(rt, alloc, &mut self.core, &mut self.words, key, act, t)
            }
            Call::Inc(step, ttl) => Ok(Answer::Number(self.count(alloc, key, (step, ttl), t))),
            Call::Cas(expect, set) => Ok(Answer::Flag(self.swap(key, expect, set, t))),
            Call::Entry(inner, value) => {
                let outer = Bytes::of(alloc, key.as_slice())?;
                let generator = generator_of(rt, alloc, outer, inner, value)?;
                self.give(alloc, &generator, t)
            }
            Call::Counts => Ok(Answer::Counts(self.counts())),
        }
    }

    // Stores the integer 1 under a key of one byte, and returns whether it was stored.
    pub(crate) fn store(&mut self, alloc: Global, key: u8, ttl: u32) -> bool {
        let value = integer(alloc, 1);
        let words = &mut self.words;
        self.core.store(words, &[key], &value, ttl, false, STORED) == StoreAnswer::Stored
    }

    // Whether a fetch finds a row of the key.
    pub(crate) fn fetch(&mut self, key: u8, t: u64) -> bool {
        self.core.look(&mut self.words, &[key], t) != Look::Miss
    }

    // One step over a list, from a slot on.
    pub(crate) fn step(
        &mut self,
        alloc: Global,
        search: &mut Search,
        from: u32,
        size: u32,
        list: List,
        fields: Fields,
        t: u64,
    ) -> Option<Chunk> {
        let from = from.min(self.core.conf().slots);
        let size = size.max(1);
        let (core, words) = (&mut self.core, &mut self.words);
        chunk(alloc, core, words, search, from, size, list, fields, t).ok()
    }

    // Deletes the rows of one step, from a slot on.
    pub(crate) fn delete(
        &mut self,
        alloc: Global,
        search: &mut Search,
        from: u32,
        size: u32,
        t: u64,
    ) -> Option<u32> {
        let from = from.min(self.core.conf().slots);
        let size = size.max(1);
        let (core, words) = (&mut self.core, &mut self.words);
        chunk_delete(alloc, core, words, search, from, size, t).ok()
    }

    // The totals of the rows of a list.
    pub(crate) fn totals(&mut self, search: &mut Search, list: List) -> Option<(u64, u64, u64)> {
        totals(&mut self.core, &mut self.words, search, list, STORED).ok()
    }
}
