//! How many events scripts may make.

ghost use Rattle.std.specs.Prelude.{◌≡◌, ◌+◌, ◌<◌, ◌≤◌, IfSome, IfNone};
ghost use Rattle.script_read.specs.Budgets.{events_in, all_events, most_events};

use crate::script::{Script, Scripts};
use apcu_model::MOST_EVENTS;

/// How many events the worker of a script may make, its end included, in a cache of `slots` slots.
/// None exactly if they are more than 4,194,304, the most that a cache has.
pub fn budget(slots: u32, script: &Script) -> Option<u32>
    ensures some { IfSome result (λ n. n ≡ events_in slots script.now + 1) }
    ensures few { IfSome result (λ n. n ≤ most_events) }
    ensures none { IfNone result (most_events < events_in slots script.now + 1) }
{
    let mut events = 1u64;
    for number in 0..script.len() {
        events = events.saturating_add(script.at(number).call.events(slots));
        if events > MOST_EVENTS {
            return None;
        }
    }
    Some(events as u32)
}

/// How many events the workers of scripts may make, all together and the end of each included, in a
/// cache of `slots` slots. None exactly if they are more than 4,194,304, the most that a cache has.
pub fn event_count(slots: u32, scripts: &Scripts) -> Option<u32>
    ensures some { IfSome result (λ n. n ≡ all_events slots scripts.now) }
    ensures few { IfSome result (λ n. n ≤ most_events) }
    ensures none { IfNone result (most_events < all_events slots scripts.now) }
{
    let mut events = 0u64;
    for worker in 0..scripts.len() {
        let Some(budget) = budget(slots, scripts.at(worker)) else {
            return None;
        };
        events = events.saturating_add(u64::from(budget));
        if events > MOST_EVENTS {
            return None;
        }
    }
    Some(events as u32)
}
