//! What a call on a pool requests next.

ghost use Rattle.std.specs.Prelude.{◌≡◌, if◌then◌else◌, nat_lt, [], Some, None, IfOk, IfSome};
ghost use Rattle.simple_pool.specs.Requests.{IsGoodCall, ask_pattern, pool_asking};
ghost use Rattle.script_read.specs.Play.{asking_in};
ghost use Rattle.mark_play.specs.Asks.{MayBeAsked};
ghost use Rattle.run_verify.specs.Seats.{IsNextEvent, asks_or, is_asking, next_from};

use apcu_model::{Conf, Request};
use simple_pool::{PoolAsk, PoolCall, request};
use std::alloc::{AllocError, Global};

// The number of the next event after `k` replies or, if the pool is being cleared, the slot; None
// if the call is done.
fn next_event(call: &PoolCall, slots: u32, k: usize, from: u32) -> Option<u32>
    ensures { IsNextEvent call.now
        (next_from slots (asking_in (pool_asking call.now.pool call.now.ask)) k from []) result }
{
    match &call.ask {
        PoolAsk::Get(..)
        | PoolAsk::Set(..)
        | PoolAsk::SetPlain(..)
        | PoolAsk::Delete(_)
        | PoolAsk::Has(_) => below(k, 1),
        PoolAsk::Clear => { if from < slots { Some(from) } else { None } }
        PoolAsk::GetMany(keys, _) | PoolAsk::DeleteMany(keys) => below(k, keys.len()),
        PoolAsk::SetMany(pairs, _) | PoolAsk::SetManyPlain(pairs) => below(k, pairs.len()),
    }
}

// The number, if it is below the count.
fn below(k: usize, count: u32) -> Option<u32>
    ensures { result ≡ (if nat_lt k count then Some k else None) }
{
    if k < count as usize {
        Some(k as u32)
    } else {
        None
    }
}

/// Whether the call makes a request after `k` replies; clearing continues from the slot `from`.
pub(crate) fn pool_asks(call: &PoolCall, slots: u32, k: usize, from: u32) -> bool
    ensures { result ≡ is_asking
        (next_from slots (asking_in (pool_asking call.now.pool call.now.ask)) k from []) }
{
    next_event(call, slots, k, from).is_some()
}

/// What the call requests after `k` replies; clearing continues from the slot `from`. None if it is
/// done.
pub(crate) fn pool_request(
    alloc: Global,
    call: &PoolCall,
    conf: &Conf,
    k: usize,
    from: u32,
) -> Result<Option<Request>, AllocError>
    requires { IsGoodCall call.now }
    ensures next { IfOk result (λ request. asks_or request ≡ next_from conf.now.slots
        (asking_in (pool_asking call.now.pool call.now.ask)) k from []) }
    ensures may { IfOk result (λ request. IfSome request (λ r.
        MayBeAsked conf.now (ask_pattern call.now.pool call.now.ask) r)) }
{
    match next_event(call, conf.slots, k, from) {
        Some(event) => Ok(Some(request(alloc, call, event)?)),
        None => Ok(None),
    }
}
