//! A cache over words in memory.

ghost use Rattle.apcu_model.specs.Conf.{IsUsable};

use crate::asking::{answer_of, flag};
use apcu_model::{Conf, Counts, Request};
use cache_core::Core;
use cache_info::{cache_info, key_info, sma_info};
use counter_entry::{IncAnswer, cas, inc};
use late_words::LateWords;
use max_tree::MaxRow;
use php_graph::{Bytes, Graph};
use seg_words::WordsIn;
use std::alloc::{AllocError, Global};
use std::marker::Model;

fn counted(answer: IncAnswer) -> Option<i64> {
    match answer {
        IncAnswer::Value(n) => Some(n),
        IncAnswer::NotInteger | IncAnswer::NoRoom => None,
    }
}

// A cache over words in memory. Contracts see the cache.
#[derive(Drop)]
pub(crate) struct Small {
    words: LateWords,
    core: Core,
}

impl Model for Small {
    ghost use Rattle.apcu_model.specs.Cache.{Cache};
    ghost use Rattle.cache_core.specs.CoreCache.{cache_of, CacheStands};

    ghost Value = { Cache };

    ghost view = { λ s. cache_of s.core };

    ghost invariant = { λ s. CacheStands ⟦<LateWords as WordsIn>⟧ s.core s.words };
}

impl Small {
    pub(crate) fn new(alloc: Global, conf: &Conf) -> Result<Small, AllocError>
        requires { IsUsable conf.now }
    {
        let mut words = LateWords::new(alloc, conf.words)?;
        let gaps = MaxRow::new(alloc, conf.words as usize / 4 + 1)?;
        let core = Core::format(&mut words, conf, gaps);
        Ok(Small { words, core })
    }

    pub(crate) fn counts(&self) -> Counts {
        self.core.counts()
    }

    fn count(&mut self, alloc: Global, key: &Bytes, how: (i64, u32), t: u64) -> Option<i64> {
        let (step, ttl) = how;
        let key = key.as_slice();
        counted(inc(alloc, &mut self.core, &mut self.words, key, step, ttl, t))
    }

    fn swap(&mut self, key: &Bytes, how: (i64, i64), t: u64) -> bool {
        let (expect, set) = how;
        let key = key.as_slice();
        cas(&mut self.core, &mut self.words, key, expect, set, t)
    }

    pub(crate) fn ask(&mut self, alloc: Global, request: &Request, t: u64) -> Option<i64> {
        match request {
            Request::Inc { key, step, ttl } => self.count(alloc, key, (*step, *ttl), t),
            Request::Cas { key, expect, set } => flag(self.swap(key, (*expect, *set), t)),
            _ => answer_of(&mut self.core, &mut self.words, request, t),
        }
    }

    fn key(&mut self, alloc: Global, key: &Bytes, t: u64) -> Result<Option<Graph>, AllocError> {
        key_info(alloc, &mut self.core, &mut self.words, key.as_slice(), t)
    }

    fn cache(&mut self, alloc: Global, limited: bool) -> Result<Graph, AllocError> {
        cache_info(alloc, &mut self.core, &mut self.words, limited)
    }

    fn segment(&mut self, alloc: Global, limited: bool) -> Result<Graph, AllocError> {
        sma_info(alloc, &mut self.core, &mut self.words, limited)
    }

    pub(crate) fn tell(
        &mut self,
        alloc: Global,
        request: &Request,
        t: u64,
    ) -> Result<Option<Graph>, AllocError> {
        match request {
            Request::KeyInfo(key) => self.key(alloc, key, t),
            Request::CacheInfo(limited) => Ok(Some(self.cache(alloc, *limited)?)),
            Request::SmaInfo(limited) => Ok(Some(self.segment(alloc, *limited)?)),
            _ => Ok(None),
        }
    }
}
