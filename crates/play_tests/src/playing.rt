//! A script, and a worker that plays it.

ghost use Rattle.std.specs.Prelude.{◌≡◌, ◌<◌, ◌≤◌, IsTrue, [], length, IfSome};
ghost use Rattle.script_read.specs.Budgets.{events_in};
ghost use Rattle.worker_play.specs.Goes.{KnowsOwnEvents};

use apcu_model::{Clock, Conf};
use io_edges::Gate;
use notation::ByteOut;
use pin_table::{Pass, TableName};
use row_search::Maker;
use script_read::{Script, read_scripts};
use shared_cache::Shared;
use std::alloc::Global;
use std::sync::Wait;
use std::test::Fail;
use worker_play::{PlayFault, play_script};

// A shape of 512 words.
pub(crate) const CONF: Conf = Conf {
    words: 512,
    slots: 32,
    ttl: 0,
    segments: 1,
};

// The script that a text spells.
pub(crate) fn script_of(alloc: Global, text: &[u8]) -> Result<Script, Fail> {
    if text.len() > 4096 {
        return Err(Fail::new("a long text"));
    }
    match read_scripts(alloc, text) {
        Ok(mut scripts) => match scripts.pop() {
            Some(script) => Ok(script),
            None => Err(Fail::new("no script")),
        },
        Err(_) => Err(Fail::new("read_scripts")),
    }
}

// Whether this many events are enough for a script, and one is left then.
fn may_play(script: &Script, slots: u32, left: u32) -> bool
    ensures { IsTrue result → events_in slots script.now < left }
{
    if left == 0 {
        return false;
    }
    let mut events = 0u64;
    for i in 0..script.len() {
        let more = script.at(i).call.events(slots);
        events = events.saturating_add(more);
        if events >= u64::from(left) {
            return false;
        }
    }
    true
}

// Plays a script, if enough events are left for it and for the worker's end.
pub(crate) fn plays<N: TableName, M: Maker + Sync, G: Gate, R: Wait>(
    rt: &R,
    alloc: Global,
    conf: &Conf,
    shared: &Shared<N>,
    pass: Pass,
    script: &Script,
    maker: &M,
    gate: &G,
    clock: Clock,
) -> Option<(Pass, Result<ByteOut, PlayFault>)>
    requires conf { conf.now ≡ N.conf }
    requires table { pass.table ≡ N.table }
    requires no_event { pass.known.own ≡ [] }
    requires whole { KnowsOwnEvents pass }
    ensures table { IfSome result (λ r. r.0.table ≡ N.table) }
    ensures worker { IfSome result (λ r. r.0.known.worker ≡ pass.known.worker) }
    ensures left { IfSome result (λ r. 1 ≤ r.0.known.left) }
{
    if !may_play(script, conf.slots, pass.left()) {
        return None;
    }
    Some(play_script(rt, alloc, conf, shared, pass, script, maker, gate, clock))
}
