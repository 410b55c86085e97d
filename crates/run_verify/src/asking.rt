//! What a call requests next.

ghost use Rattle.std.specs.Prelude.{◌≡◌, ◌≤◌, [], ◌∷◌, drop};
ghost use Rattle.std.specs.Prelude.{option_map, IfOk, IfSome};
ghost use Rattle.apcu_model.specs.Asking.{asked};
ghost use Rattle.script_read.specs.Calls.{HasRanges};
ghost use Rattle.script_read.specs.Play.{asking_of, asks_each, slot_after, step_end};
ghost use Rattle.mark_play.specs.Asks.{MayBeAsked};
ghost use Rattle.script_read.specs.Patterns.{call_pattern};
ghost use Rattle.run_verify.specs.Seats.{AsksKeys, AsksPairs, IsLent, asks_or, is_asking};
ghost use Rattle.run_verify.specs.Seats.{next_from, queried};

use crate::pools::{pool_asks, pool_request};
use apcu_model::{Ask, Conf, Keys, List, Pairs, Reply, Request};
use php_graph::{Bytes, Graph};
use script_read::Call;
use std::alloc::{AllocError, Global};
use std::marker::Model;

/// A request of a call.
#[derive(Drop)]
pub(crate) enum Query<'a> {
    /// With keys and values from the script.
    Lent(Ask<'a>),
    /// With a key that was made for it.
    Made(Request),
}

impl Query<'_> {
    pub(crate) fn ask(&self) -> Ask<'_>
        ensures { asked result ≡ queried self.now }
    {
        match self {
            Query::Lent(ask) => *ask,
            Query::Made(request) => request.lent(),
        }
    }
}

// The only request of a call, or none after it.
fn only<'a>(k: usize, ask: Ask<'a>) -> Option<Ask<'a>>
    ensures next { asks_or (option_map asked result)
        ≡ asks_each (drop k (asked ask.entry ∷ [])) [] }
    ensures same { IfSome result (λ a. asked a ≡ asked ask.entry) }
{
    if k == 0 { Some(ask) } else { None }
}

// A key of several, or none after the last.
fn key_at(keys: &Keys, k: usize) -> Option<&Bytes>
    ensures { AsksKeys keys.now k (option_map (λ key. key.now) result) }
{
    if k < keys.len() as usize {
        Some(keys.at(k as u32))
    } else {
        None
    }
}

// A pair of several, or none after the last.
fn pair_at(pairs: &Pairs, k: usize) -> Option<(&Bytes, &Graph)>
    ensures { AsksPairs pairs.now k (option_map (λ pair. (pair.0.now, pair.1.now)) result) }
{
    if k < pairs.len() as usize {
        Some(pairs.at(k as u32))
    } else {
        None
    }
}

// What a call requests after `k` replies; a walk continues from the slot `from`. None if it is
// done.
pub(crate) fn query_of<'a>(
    alloc: Global,
    call: &'a Call,
    conf: &Conf,
    k: usize,
    from: u32,
) -> Result<Option<Query<'a>>, AllocError>
    requires { HasRanges call.now }
    ensures next { IfOk result (λ query. asks_or (option_map queried query)
        ≡ next_from conf.now.slots (asking_of call.now) k from []) }
    ensures may { IfOk result (λ query. IfSome query (λ q.
        MayBeAsked conf.now (call_pattern call.now) (queried q))) }
{
    if let Call::Pool(boxed) = call {
        return match pool_request(alloc, boxed.call(), conf, k, from)? {
            Some(request) => Ok(Some(Query::Made(request))),
            None => Ok(None),
        };
    }
    match ask_of(call, conf, k, from) {
        Some(ask) => Ok(Some(Query::Lent(ask))),
        None => Ok(None),
    }
}

// Whether a call makes a request after `k` replies; a walk continues from the slot `from`.
pub(crate) fn asks(call: &Call, conf: &Conf, k: usize, from: u32) -> bool
    requires { HasRanges call.now }
    ensures { result ≡ is_asking (next_from conf.now.slots (asking_of call.now) k from []) }
{
    if let Call::Pool(boxed) = call {
        return pool_asks(boxed.call(), conf.slots, k, from);
    }
    ask_of(call, conf, k, from).is_some()
}

// What a call that is on no pool requests.
fn ask_of<'a>(call: &'a Call, conf: &Conf, k: usize, from: u32) -> Option<Ask<'a>>
    requires ranges { HasRanges call.now }
    requires lent { IsLent call.now }
    ensures next { asks_or (option_map asked result)
        ≡ next_from conf.now.slots (asking_of call.now) k from [] }
    ensures may { IfSome result (λ ask. MayBeAsked conf.now (call_pattern call.now) (asked ask)) }
{
    match call {
        Call::StoreOne {
            key,
            value,
            ttl,
            exclusive,
        } => only(
            k,
            Ask::Store {
                key: key.as_slice(),
                value,
                ttl: *ttl,
                exclusive: *exclusive,
            },
        ),
        Call::StoreMany {
            pairs,
            ttl,
            exclusive,
        } => match pair_at(pairs, k) {
            Some((key, value)) => Some(Ask::Store {
                key: key.as_slice(),
                value,
                ttl: *ttl,
                exclusive: *exclusive,
            }),
            None => None,
        },
        Call::FetchOne(key) => only(k, Ask::Fetch(key.as_slice())),
        Call::FetchMany(keys) => match key_at(keys, k) {
            Some(key) => Some(Ask::Fetch(key.as_slice())),
            None => None,
        },
        Call::ExistsOne(key) => only(k, Ask::Exists(key.as_slice())),
        Call::ExistsMany(keys) => match key_at(keys, k) {
            Some(key) => Some(Ask::Exists(key.as_slice())),
            None => None,
        },
        Call::DeleteOne(key) => only(k, Ask::Delete(key.as_slice())),
        Call::DeleteMany(keys) => match key_at(keys, k) {
            Some(key) => Some(Ask::Delete(key.as_slice())),
            None => None,
        },
        Call::Inc { key, step, ttl } => only(
            k,
            Ask::Inc {
                key: key.as_slice(),
                step: *step,
                ttl: *ttl,
            },
        ),
        Call::Cas { key, expect, set } => only(
            k,
            Ask::Cas {
                key: key.as_slice(),
                expect: *expect,
                set: *set,
            },
        ),
        Call::Entry(generator) => only(k, Ask::Entry(generator)),
        Call::Clear => only(k, Ask::Clear),
        Call::Enabled => None,
        Call::KeyInfo(key) => only(k, Ask::KeyInfo(key.as_slice())),
        Call::CacheInfo(limited) => only(k, Ask::CacheInfo(*limited)),
        Call::SmaInfo(limited) => only(k, Ask::SmaInfo(*limited)),
        Call::Walk {
            search,
            fields,
            size,
            list,
        } => match list {
            List::Active => {
                if from < conf.slots {
                    Some(Ask::Chunk {
                        search: search.as_ref(),
                        from,
                        size: *size,
                        list: List::Active,
                        fields: *fields,
                    })
                } else {
                    None
                }
            }
            List::Deleted => only(
                k,
                Ask::Chunk {
                    search: search.as_ref(),
                    from: 0,
                    size: *size,
                    list: List::Deleted,
                    fields: *fields,
                },
            ),
        },
        Call::WalkDelete { search, size } => {
            if from < conf.slots {
                Some(Ask::ChunkDelete {
                    search: search.as_ref(),
                    from,
                    size: *size,
                })
            } else {
                None
            }
        }
        Call::Totals { search, list } => only(
            k,
            Ask::Totals {
                search: search.as_ref(),
                list: *list,
            },
        ),
        Call::Pool(_) => unreachable!(),
    }
}

// The slot at which a step ended.
fn step_end(slots: u32, reply: &Reply) -> u32
    ensures { result ≡ step_end slots reply.now }
{
    match reply {
        Reply::Chunk(chunk) => chunk.next,
        Reply::Next(next) => *next,
        Reply::Flag(_)
        | Reply::Found(_)
        | Reply::Absent
        | Reply::Number(_)
        | Reply::NoNumber
        | Reply::Gave(_)
        | Reply::Info(_)
        | Reply::Totals { .. }
        | Reply::Ended => slots,
    }
}

// The slot from which a walk continues after a reply.
pub(crate) fn slot_after(slots: u32, from: u32, reply: &Reply) -> u32
    ensures { result ≡ slot_after slots from reply.now }
{
    let end = step_end(slots, reply);
    if from < end { end } else { slots }
}
