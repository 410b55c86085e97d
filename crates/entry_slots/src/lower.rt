//! What the crates below promise.

ghost use Rattle.entry_slots.specs.Lower.{Laws};

use apcu_model::rows_stay_apart;
use sma_blocks::block_laws;
use value_image::{bytes_are_packed, images_are_runs, runs_are_written, runs_stand};

// Gathers the laws of the crates below that the calls here use.
pub(crate) fn lower_laws()
    ensures { Laws }
{
    block_laws();
    rows_stay_apart();
    images_are_runs();
    runs_stand();
    runs_are_written();
    bytes_are_packed();
}
