//! How many events each worker may make.

ghost use Rattle.std.specs.Prelude.{◌≡◌, ◌≢◌, ◌<◌, ◌≤◌, length, IfOk, IfErr};
ghost use Rattle.script_read.specs.Budgets.{budgets_of, all_events, most_events};
ghost use Rattle.crew_play.specs.declared.play.CrewFault.TheVariants.{Memory, TooMany, Pattern};

use crate::play::CrewFault;
use apcu_model::MOST_EVENTS;
use script_read::{Scripts, budget};
use std::alloc::Global;

// The budget of each worker, its end included.
pub(crate) fn budgets(alloc: Global, slots: u32, scripts: &Scripts) -> Result<Vec<u32>, CrewFault>
    ensures budgets { IfOk result (λ all. all.items ≡ budgets_of slots scripts.now) }
    ensures few { IfOk result (λ _. all_events slots scripts.now ≤ most_events) }
    ensures many { IfErr result (λ e. e ≡ TooMany → most_events < all_events slots scripts.now) }
    ensures others { IfErr result (λ e. e ≢ Pattern) }
{
    let mut all = Vec::with_capacity(alloc, scripts.len() as usize)?;
    let mut events = 0u64;
    for worker in 0..scripts.len() {
        let Some(budget) = budget(slots, scripts.at(worker)) else {
            return Err(CrewFault::TooMany);
        };
        events = events.saturating_add(u64::from(budget));
        if events > MOST_EVENTS {
            return Err(CrewFault::TooMany);
        }
        all.push_reserved(budget);
    }
    Ok(all)
}
