//! A worker that reads the counters of generated scripts, and then ends.

ghost use Rattle.std.specs.Prelude.{◌≡◌, ◌<◌, ◌≤◌, [], ◌∷◌, Some, length};
ghost use Rattle.apcu_model.specs.declared.request.Request.TheVariants as requests;
ghost use Rattle.apcu_model.specs.declared.request.Reply.{Reply};
ghost use Rattle.script_read.specs.GeneratedScripts.{counter_key};
ghost use Rattle.play_laws.specs.Observer.{wish_now};
ghost use Rattle.play_laws.specs.Summary.{first_number, number_found};
ghost use Rattle.shared_cache.specs.PinnedFetches.{scalar_graph};
ghost use Rattle.worker_play.specs.Goes.{KnowsOwnEvents, GoesOn};
ghost use Rattle.worker_play.specs.Looks.{Observes};

use cache_core::Scalar;
use pin_table::{Ended, Pass, TableName};
use play_laws::one_event_own;
use shared_cache::{Pinned, Shared};
use std::alloc::Global;
use std::sync::Wait;

// The integer that is returned at once, or 0.
fn number_of(scalar: Scalar) -> i64
    ensures { result ≡ first_number (scalar_graph scalar) }
{
    match scalar {
        Scalar::Int(n) => n,
        Scalar::Null | Scalar::Bool(_) => 0,
    }
}

// Fetches one of the eight counters: the integer that is found, or 0. What is copied is no integer,
// so if there is no memory for the copy, that is no fault.
pub(crate) fn look_at<N: TableName, R: Wait>(
    rt: &R,
    alloc: Global,
    shared: &Shared<N>,
    pass: Pass,
    number: u8,
) -> (Pass, i64)
    requires table { pass.table ≡ N.table }
    requires whole { KnowsOwnEvents pass }
    requires left { 2 ≤ pass.known.left }
    requires counter { number < 8 }
    ensures { (y : Reply) × GoesOn N.conf (length N.budgets) pass result.0
        (wish_now (requests.Fetch (counter_key number)) ∷ []) (y ∷ [])
        × (result.1 ≡ number_found (Some y)) }
{
    one_event_own();
    let key = [b'c', b'0' + number];
    match shared.pin(rt, pass, &key, 0) {
        Pinned::Miss(pass) => (pass, 0),
        Pinned::Scalar(pass, scalar) => (pass, number_of(scalar)),
        Pinned::Hit(copying) => {
            let (pass, _value) = shared.copy_out(alloc, copying);
            (pass, 0)
        }
    }
}

/// Has a worker fetch the counters `c0` to `c7` in order, all at the moment 0, and then ends it.
/// Returns what it found: of each counter its integer, or 0 if there is none.
///
/// The pass must have nine more events left. Memory is taken only if something other than an
/// integer is stored under a counter's key; that counts as 0, also if there is no memory.
pub fn observe<N: TableName, R: Wait>(
    rt: &R,
    alloc: Global,
    shared: &Shared<N>,
    pass: Pass,
) -> (Ended, [i64; 8])
    requires table { pass.table ≡ N.table }
    requires whole { KnowsOwnEvents pass }
    requires left { 9 ≤ pass.known.left }
    ensures { Observes N.conf (length N.budgets) pass result.0 result.1 }
{
    one_event_own();
    let mut held = pass;
    let mut counters = [0; 8];
    for number in 0..8u8 {
        let (next, value) = look_at(rt, alloc, shared, held, number);
        held = next;
        counters[usize::from(number)] = value;
    }
    (shared.retire(rt, held), counters)
}
