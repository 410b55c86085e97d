//! What the crates below promise.

ghost use Rattle.mark_play.specs.Laws.{PlayLaws};

use apcu_model::{events_keep, held_alike, numbered, one_event_more, rows_keep_numbers};
use entry_slots::{standing_laws, window_laws};

// Gathers the laws of the crates below that the calls here use.
pub(crate) fn lower_laws()
    ensures { PlayLaws }
{
    window_laws();
    standing_laws();
    held_alike();
    numbered();
    one_event_more();
    rows_keep_numbers();
    events_keep();
}
