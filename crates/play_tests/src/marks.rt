//! A play of marks, event by event.

ghost use Rattle.std.specs.Prelude.{◌≡◌, None, Some};
ghost use Rattle.apcu_model.specs.Asking.{asked};
ghost use Rattle.mark_play.specs.Asks.{MayBeAsked};

use apcu_model::{Ask, Conf, Fields, List, Reply, Request};
use mark_play::Replay;
use row_search::{RegexMaker, Search};
use std::alloc::Global;
use std::process::Abort;
use std::test::Fail;

// An event: its worker, its mask, and its moment.
#[derive(Clone, Copy)]
pub(crate) struct Event {
    pub(crate) worker: u32,
    pub(crate) mask: u64,
    pub(crate) t: u64,
}

// How many events a table can play.
const MOST: u32 = 20_000;

// The play on a cache of this shape, and how many more events it can play. The search of walks has
// no pattern.
pub(crate) struct Table {
    alloc: Global,
    conf: Conf,
    replay: Replay,
    search: Search,
    left: u32,
    ghost counted: { replay.left ≡ left },
    ghost shape: { replay.stage.cache.conf ≡ conf },
    ghost all: { search ≡ None },
}

impl Drop for Table {
    fn drop(self) {
        let Table {
            alloc: _,
            conf: _,
            replay: _,
            search: _,
            left: _,
        } = self;
    }
}

impl Table {
    // A table of this shape, which is a usable one.
    pub(crate) fn new(rt: &impl Abort, alloc: Global, conf: &Conf) -> Result<Table, Fail> {
        assert!(rt; conf.usable());
        let search = Search::new(alloc, &RegexMaker, None)?;
        let replay = Replay::new(alloc, conf, MOST)?;
        Ok(Table {
            alloc,
            conf: *conf,
            replay,
            search,
            left: MOST,
        })
    }

    // Whether the mask is legal for an event of one of this many workers.
    pub(crate) fn is_legal(&self, workers: u32, worker: u32, mask: u64) -> bool {
        self.replay.is_legal(workers, worker, mask)
    }

    // The reply to the request of an event.
    fn play(&mut self, rt: &impl Abort, event: Event, ask: Ask<'_>) -> Result<Reply, Fail>
        requires may { MayBeAsked self.old.conf self.old.search (asked ask) }
    {
        assert!(rt; self.left > 0 && event.worker < 64);
        let Event { worker, mask, t } = event;
        let reply = self
            .replay
            .play(self.alloc, worker, mask, ask, &mut self.search, t)?;
        self.left -= 1;
        Ok(reply)
    }

    // The number of removed rows, found in an event of the worker 0 with an empty mask.
    pub(crate) fn removed(&mut self, rt: &impl Abort) -> Result<u32, Fail> {
        let event = Event {
            worker: 0,
            mask: 0,
            t: 100,
        };
        let ask = Ask::Chunk {
            search: None,
            from: 0,
            size: 1,
            list: List::Deleted,
            fields: Fields(0),
        };
        match self.play(rt, event, ask)? {
            Reply::Chunk(chunk) => Ok(chunk.items.len()),
            _ => Err(Fail::new("no chunk")),
        }
    }

    // How many rows a walk over all slots finds, and the totals of the rows.
    pub(crate) fn walked(&mut self, rt: &impl Abort, event: Event) -> Result<(u32, u64), Fail> {
        let ask = Ask::Chunk {
            search: None,
            from: 0,
            size: 1_000_000,
            list: List::Active,
            fields: Fields(1),
        };
        let Reply::Chunk(chunk) = self.play(rt, event, ask)? else {
            return Err(Fail::new("no chunk"));
        };
        let (search, list) = (None, List::Active);
        let Reply::Totals { count, .. } = self.play(rt, event, Ask::Totals { search, list })? else {
            return Err(Fail::new("no totals"));
        };
        Ok((chunk.items.len(), count))
    }

    // Deletes what a walk from the first slot on finds, at least this many rows. Returns the slot
    // after it.
    pub(crate) fn delete_from(
        &mut self,
        rt: &impl Abort,
        event: Event,
        size: u32,
    ) -> Result<u32, Fail> {
        let ask = Ask::ChunkDelete {
            search: None,
            from: 0,
            size: size.max(1),
        };
        match self.play(rt, event, ask)? {
            Reply::Next(next) => Ok(next),
            _ => Err(Fail::new("no slot")),
        }
    }

    // The reply to a request, if it is none of an iterator.
    pub(crate) fn ask(
        &mut self,
        rt: &impl Abort,
        event: Event,
        request: &Request,
    ) -> Result<Reply, Fail> {
        match request {
            Request::Store {
                key,
                value,
                ttl,
                exclusive,
            } => {
                let ask = Ask::Store {
                    key: key.as_slice(),
                    value,
                    ttl: *ttl,
                    exclusive: *exclusive,
                };
                self.play(rt, event, ask)
            }
            Request::Fetch(key) => self.play(rt, event, Ask::Fetch(key.as_slice())),
            Request::Exists(key) => self.play(rt, event, Ask::Exists(key.as_slice())),
            Request::Delete(key) => self.play(rt, event, Ask::Delete(key.as_slice())),
            Request::Inc { key, step, ttl } => {
                let ask = Ask::Inc {
                    key: key.as_slice(),
                    step: *step,
                    ttl: *ttl,
                };
                self.play(rt, event, ask)
            }
            Request::Cas { key, expect, set } => {
                let ask = Ask::Cas {
                    key: key.as_slice(),
                    expect: *expect,
                    set: *set,
                };
                self.play(rt, event, ask)
            }
            Request::Entry(generator) => {
                assert!(rt; generator.entries() <= 8);
                self.play(rt, event, Ask::Entry(generator))
            }
            Request::Clear => self.play(rt, event, Ask::Clear),
            Request::KeyInfo(key) => self.play(rt, event, Ask::KeyInfo(key.as_slice())),
            Request::CacheInfo(limited) => self.play(rt, event, Ask::CacheInfo(*limited)),
            Request::SmaInfo(limited) => self.play(rt, event, Ask::SmaInfo(*limited)),
            Request::Chunk { .. } | Request::ChunkDelete { .. } | Request::Totals { .. } => {
                Err(Fail::new("an iterator"))
            }
            Request::Retire => self.play(rt, event, Ask::Retire),
        }
    }
}
