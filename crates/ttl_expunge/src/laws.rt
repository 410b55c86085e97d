//! What the crates above use besides the calls.

ghost use Rattle.ttl_expunge.specs.Laws.{DropLaws};
ghost use Rattle.std.specs.Prelude.{◌≡◌, ℕ, List, Contains};
ghost use Rattle.seg_words.specs.Probing.{Goes};
ghost use Rattle.seg_words.specs.Windows.{Aside, held_blocks};
ghost use Rattle.apcu_model.specs.Cache.{Row};
ghost use Rattle.entry_slots.specs.Entries.{Entries};
ghost use Rattle.ttl_expunge.specs.Dropping.{dropped_rows};
ghost use Rattle.ttl_expunge.specs.ProbedRows.{AreHeld, KeepsOpen, Drops};
ghost use Rattle.entry_slots.specs.Facts.{IsSound};

/// What follows when rows were dropped: the blocks that are held after later probes of the event
/// give the same result, the rows under open windows stay, and removed rows that are held stay.
pub fn drop_laws()
    ensures { DropLaws }
{}
