//! What the crates above use besides the calls.

ghost use Rattle.entry_slots.specs.Laws.{StandingLaws, WindowLaws};
ghost use Rattle.std.specs.Prelude.{◌≡◌, ◌≢◌, ℕ, ◌<◌, ◌≤◌, ◌+◌, true, false, List, [], ◌∷◌, ◌++◌};
ghost use Rattle.std.specs.Prelude.{length, Contains, Some};
ghost use Rattle.seg_words.specs.declared.gaps.Extent.{Extent};
ghost use Rattle.seg_words.specs.Blocks.{MayProbe};
ghost use Rattle.seg_words.specs.Windows.{Aside};
ghost use Rattle.apcu_model.specs.Cache.{Row};
ghost use Rattle.entry_slots.specs.declared.slots.EntrySlots.{EntrySlots};
ghost use Rattle.entry_slots.specs.Lists.{has_place, first_place, place_after};
ghost use Rattle.entry_slots.specs.Entries.{Entries, chain_of, listed, loose, blocks_of, place_of};
ghost use Rattle.entry_slots.specs.Entries.{unlinked_at};
ghost use Rattle.entry_slots.specs.Entries.{removed_at, freed_at, dropped_at, gone_at};
ghost use Rattle.entry_slots.specs.Standing.{Stands};
ghost use Rattle.entry_slots.specs.Facts.{OnlyClose, OnlyOpensAt, LieApart, IsCopyable, IsSound};
ghost use Rattle.entry_slots.specs.Facts.{IsAtRow};

/// Words represent the same entries after windows close and the mask and the refused places change
/// in any way, and after a window opens on the block of a row or a removed row.
pub fn window_laws()
    ensures { WindowLaws }
{}

/// No two blocks begin at the same place, and no row or removed row is at 0; each of these may be
/// probed, whatever the windows, and may be copied from. All blocks are disjoint and inside the
/// words. So a walk along a chain reaches each place once.
pub fn standing_laws()
    ensures { StandingLaws }
{}

/// A row that is unlinked and then removed or freed is no longer one of the rows, and nothing else
/// has changed. Its chain is shorter from the first step on.
pub fn leaving_laws()
    ensures drops { (e : EntrySlots) (words : List ℕ) (aside : Aside) (s : Entries) (at t : ℕ)
        → Stands e words aside s → has_place at s.rows ≡ true
        → removed_at at t (unlinked_at at s) ≡ dropped_at at t s }
    ensures goes { (e : EntrySlots) (words : List ℕ) (aside : Aside) (s : Entries) (at : ℕ)
        → Stands e words aside s → has_place at s.rows ≡ true
        → freed_at at (unlinked_at at s) ≡ gone_at at s }
    ensures shorter { (s : Entries) (slot at : ℕ) → has_place at (chain_of s slot) ≡ true
        → length (chain_of (unlinked_at at s) slot) < length (chain_of s slot) }
{}

/// Which places rows have: those of the rows of a list and no others. The same for the one that was
/// found by its key, the first one, the next one, each of a chain, and the one that was unlinked.
pub fn place_laws()
    ensures member { (rows : List Row) (row : Row) → Contains rows row
        → has_place row.place rows ≡ true }
    ensures some { (rows : List Row) (at : ℕ) → has_place at rows ≡ true
        → (row : Row) × Contains rows row × (row.place ≡ at) }
    ensures found { (key : List ℕ) (s : Entries) (at : ℕ)
        → Some at ≡ place_of key s → has_place at s.rows ≡ true }
    ensures first { (rows : List Row) (at : ℕ)
        → at ≡ first_place rows → at ≢ 0 → has_place at rows ≡ true }
    ensures next { (rows : List Row) (at next : ℕ)
        → next ≡ place_after at rows → next ≢ 0 → has_place next rows ≡ true }
    ensures chain { (s : Entries) (slot at : ℕ)
        → has_place at (chain_of s slot) ≡ true → has_place at s.rows ≡ true }
    ensures row { (s : Entries) (at : ℕ)
        → has_place at s.rows ≡ true → has_place at (listed s) ≡ true }
    ensures removed { (s : Entries) (at : ℕ) → has_place at s.removed ≡ true
        → (has_place at (listed s) ≡ true) × (has_place at (loose s) ≡ true) }
    ensures unlinked { (s : Entries) (at : ℕ)
        → has_place at s.unlinked ≡ true → has_place at (loose s) ≡ true }
    ensures unlinks { (s : Entries) (at : ℕ)
        → has_place at s.rows ≡ true → has_place at (unlinked_at at s).unlinked ≡ true }
{}
