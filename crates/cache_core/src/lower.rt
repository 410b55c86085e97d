//! What the crates below promise.

ghost use Rattle.cache_core.specs.Laws.{CacheLaws};

use apcu_model::count_laws;
use entry_slots::standing_laws;
use ttl_expunge::drop_laws;

// Gathers the laws of the crates below that the calls here use.
pub(crate) fn lower_laws()
    ensures { CacheLaws }
{
    standing_laws();
    drop_laws();
    count_laws();
}
