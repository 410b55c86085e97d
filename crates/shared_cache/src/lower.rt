//! What the crates below promise.

ghost use Rattle.shared_cache.specs.Laws.{LockLaws};

use apcu_model::{events_keep, held_alike, numbered, one_event_more};
use entry_slots::{standing_laws, window_laws};
use pin_table::rule_laws;

// Gathers the laws of the crates below that the calls here use.
pub(crate) fn lower_laws()
    ensures { LockLaws }
{
    rule_laws();
    window_laws();
    standing_laws();
    one_event_more();
    held_alike();
    numbered();
    events_keep();
}
