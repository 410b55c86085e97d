//! What stays true along events, whatever their requests.

ghost use Rattle.apcu_model.specs.Laws.{CountLaws, EventsKeep, HeldAlike, OneEventMore};
ghost use Rattle.apcu_model.specs.Laws.{RowsKeepNumbers, RowsStayApart};
ghost use Rattle.std.specs.Prelude.{◌≡◌, ◌↔◌, ◌<◌, ◌≤◌, ◌&&◌, ℕ, Bool, true, false, List, [], ◌∷◌};
ghost use Rattle.std.specs.Prelude.{◌++◌, length, map, filter, Contains, IsTrue};
ghost use Rattle.apcu_model.specs.declared.conf.Conf.{Conf};
ghost use Rattle.apcu_model.specs.declared.request.Event.{Event};
ghost use Rattle.apcu_model.specs.declared.journal.TheConstants.{MOST_EVENTS};
ghost use Rattle.apcu_model.specs.declared.request.Request.{Request};
ghost use Rattle.apcu_model.specs.Cache.{Row, Cache};
ghost use Rattle.apcu_model.specs.Change.{AreAlike, ForgetsCounts, KeepsCounts, is_expunged};
ghost use Rattle.apcu_model.specs.Change.{with_room, with_row};
ghost use Rattle.apcu_model.specs.Generators.{entered};
ghost use Rattle.apcu_model.specs.History.{IsNumbered, Stage, after_event, after_events, all_legal};
ghost use Rattle.apcu_model.specs.History.{are_shallow, held_places, is_legal_mask, is_shallow};
ghost use Rattle.apcu_model.specs.History.{mark_of, marks_of, stage_of};
ghost use Rattle.apcu_model.specs.Levels.{Generator};
ghost use Rattle.apcu_model.specs.Rows.{are_apart};
ghost use Rattle.apcu_model.specs.Sequential.{cache_after, reply_to};

/// With a single worker no other one copies a value: 0 is the mask of each of its events, and no
/// block is held in them. The mask 0 is legal in every event, whichever worker's it is.
pub fn works_alone()
    ensures alone { (m : Stage) (mask : ℕ) → IsTrue (is_legal_mask 1 0 m mask) ↔ (mask ≡ 0) }
    ensures legal { (workers worker : ℕ) (m : Stage) → IsTrue (is_legal_mask workers worker m 0) }
    ensures none_held { (m : Stage) → held_places m 0 ≡ [] }
{}

/// Rows of which no two have the same key stay so if some of them are picked, if a change keeps
/// their keys, and if a row is added in the place of the one of its key, or last.
pub fn rows_stay_apart()
    ensures { RowsStayApart }
{}

/// No event changes the cache's shape, and rows of which no two have the same key stay so.
pub fn events_keep()
    ensures { EventsKeep }
{}

/// What making room does to the counters: they are unchanged, or begin at 0 again if all rows were
/// dropped.
pub fn count_laws()
    ensures { CountLaws }
{}

/// Only the members of the list of held places count, not their order or how often they are in it.
pub fn held_alike()
    ensures { HeldAlike }
{}

/// After at most `MOST_EVENTS` events, each of at most eight insertions, rows and removed rows of
/// one number have one place, and each worker has one window.
pub fn numbered()
    ensures { (conf : Conf) (history : List Event) → length history ≤ MOST_EVENTS
        → are_shallow history ≡ true → IsNumbered (stage_of conf history) }
{}

/// In a history of at most `MOST_EVENTS` events, each of at most eight insertions: rows and removed
/// rows have numbers below the next one. A number is never used again: after more events each row
/// with a number that was given before them existed then, with its key. And a number identifies one
/// row: two rows of one number, in the same cache or in a later one, have one key and one place.
pub fn rows_keep_numbers()
    ensures { RowsKeepNumbers }
{}

/// What follows from one more event.
pub fn one_event_more()
    ensures { OneEventMore }
{}
