//! The values of counters, and the summary of generated scripts.

ghost use Rattle.std.specs.Prelude.{◌≡◌, ℕ, ℤ, ◌<◌, ◌≤◌, ◌+◌, ◌*◌, pos, ◌+ℤ◌, false, List, [], ◌∷◌};
ghost use Rattle.std.specs.Prelude.{◌++◌, length, Contains, IsTrue, Some, slice_get};
ghost use Rattle.std.specs.Int.{int_wrap, w64};
ghost use Rattle.std.specs.Int.RustNames.{FitsSigned};
ghost use Rattle.std.specs.List.{AllByRecursion};
ghost use Rattle.apcu_model.specs.declared.conf.Clock.{Clock};
ghost use Rattle.apcu_model.specs.declared.conf.Conf.{Conf};
ghost use Rattle.apcu_model.specs.declared.request.Event.{Event};
ghost use Rattle.apcu_model.specs.declared.journal.Mark.{Mark};
ghost use Rattle.apcu_model.specs.declared.journal.TheConstants.{MOST_EVENTS};
ghost use Rattle.apcu_model.specs.declared.request.Reply.{Reply};
ghost use Rattle.apcu_model.specs.declared.limits.TheConstants.{MOST_WORKERS};
ghost use Rattle.apcu_model.specs.Cache.{Row};
ghost use Rattle.apcu_model.specs.Conf.{IsGood};
ghost use Rattle.apcu_model.specs.Counters.{integer_in};
ghost use Rattle.apcu_model.specs.History.{are_shallow, marks_of, reply_in, stage_of};
ghost use Rattle.pin_table.specs.Events.{events_of};
ghost use Rattle.script_read.specs.declared.script.Step.{Step};
ghost use Rattle.script_read.specs.Clock.{all_timed};
ghost use Rattle.script_read.specs.Grammar.{AreScripts};
ghost use Rattle.script_read.specs.Ranges.{AreRanged};
ghost use Rattle.script_read.specs.GeneratedScripts.{Draw, draws_of, generated, steps_of_draws};
ghost use Rattle.script_read.specs.Play.{IsCompletePlay, Play, Wish, event_of, played, wanted};
ghost use Rattle.script_read.specs.Play.{wish_of};
ghost use Rattle.play_laws.specs.Counting.{counted_up, none_swaps, steps_on, total_of};
ghost use Rattle.play_laws.specs.Observer.{IsObservedLast, counters_read, observed};
ghost use Rattle.play_laws.specs.Observer.{wish_to_end, wishes_of_draws, wishes_of_looks};
ghost use Rattle.play_laws.specs.Summary.{IsLarge, is_declined, summary_due, summary_of};
ghost use Rattle.play_laws.specs.JournalEvents.{events_from};

use apcu_model::rows_stay_apart;
use script_read::scripts_are_ranged;

/// Between two points of a history at which the row of a key is the same one, its integer is
/// counted up by the steps of all increments on the key, as long as no compare-and-swap sets it,
/// whatever else any worker does meanwhile. The same holds between two points of any legal journal:
/// of scripts that bytes spell, under either clock, in a cache of a good shape; or of any in range,
/// in a cache that has at least one slot, since without slots no row would ever be dropped to make
/// room. If all steps fit 64 bits, it is counted up by their sum modulo 2^64.
pub fn counters_count()
    ensures counted { (conf : Conf) (before between : List Event) (first second : Row) (n : ℤ)
        → 1 ≤ conf.slots → length (before ++ between) ≤ MOST_EVENTS
        → IsTrue (are_shallow (before ++ between))
        → Contains (stage_of conf before).cache.rows first
        → Contains (stage_of conf (before ++ between)).cache.rows second
        → first.key ≡ second.key → first.number ≡ second.number → integer_in first.graph ≡ Some n
        → IsTrue (none_swaps first.key (stage_of conf before) between)
        → integer_in second.graph ≡ Some (counted_up n (steps_on first.key between)) }
    ensures spelled { (conf : Conf) (clock : Clock) (bytes : List ℕ) (scripts : List (List Step))
        (before between : List Mark) (p q : Play) (first second : Row) (n : ℤ)
        → let timed = all_timed clock scripts in
        IsGood conf → AreScripts bytes scripts → length (before ++ between) ≤ MOST_EVENTS
        → played conf timed before ≡ Some p → played conf timed (before ++ between) ≡ Some q
        → Contains p.stage.cache.rows first → Contains q.stage.cache.rows second
        → first.key ≡ second.key → first.number ≡ second.number → integer_in first.graph ≡ Some n
        → let events = events_from conf timed p between in
        IsTrue (none_swaps first.key p.stage events)
        → integer_in second.graph ≡ Some (counted_up n (steps_on first.key events)) }
    ensures journals { (conf : Conf) (scripts : List (List Step)) (before between : List Mark)
        (p q : Play) (first second : Row) (n : ℤ)
        → 1 ≤ conf.slots → length (before ++ between) ≤ MOST_EVENTS → AreRanged scripts
        → played conf scripts before ≡ Some p → played conf scripts (before ++ between) ≡ Some q
        → Contains p.stage.cache.rows first → Contains q.stage.cache.rows second
        → first.key ≡ second.key → first.number ≡ second.number → integer_in first.graph ≡ Some n
        → let events = events_from conf scripts p between in
        IsTrue (none_swaps first.key p.stage events)
        → integer_in second.graph ≡ Some (counted_up n (steps_on first.key events)) }
    ensures modulo { (n : ℤ) (steps : List ℤ) → FitsSigned w64 n
        → AllByRecursion (FitsSigned w64) steps
        → counted_up n steps ≡ int_wrap w64 (n +ℤ total_of steps) }
{
    rows_stay_apart();
    scripts_are_ranged();
}

/// Generated scripts in a cache of one segment of at least 8 MB with at most 4096 slots. No play of
/// them has to drop all rows, and no store or increment in it fails. Every journal that is legal
/// and complete, with the observer's looks last, has the same summary: it counts each store and
/// each counter that was created, and has for each counter the sum of its steps.
pub fn summaries_agree()
    ensures no_expunge { (conf : Conf) (seed workers calls : ℕ) (journal : List Mark) (p : Play)
        → IsLarge conf → 1 ≤ workers → workers ≤ MOST_WORKERS
        → workers * (calls + 1) ≤ MOST_EVENTS
        → played conf (observed (generated seed workers calls)) journal ≡ Some p
        → p.stage.cache.expunges ≡ 0 }
    ensures stored { (conf : Conf) (seed workers calls : ℕ) (journal : List Mark) (p : Play)
        (mark : Mark) (wish : Wish)
        → IsLarge conf → 1 ≤ workers → workers ≤ MOST_WORKERS
        → workers * (calls + 1) ≤ MOST_EVENTS
        → let scripts = observed (generated seed workers calls) in
        played conf scripts journal ≡ Some p → wish_of conf scripts p mark.worker ≡ Some wish
        → is_declined wish.request (reply_in p.stage (event_of mark wish)) ≡ false }
    ensures summary { (conf : Conf) (seed workers calls : ℕ) (journal : List Mark) (p : Play)
        → IsLarge conf → 1 ≤ workers → workers ≤ MOST_WORKERS
        → workers * (calls + 1) ≤ MOST_EVENTS
        → let scripts = observed (generated seed workers calls) in
        played conf scripts journal ≡ Some p → IsCompletePlay conf scripts journal
        → IsObservedLast workers calls journal
        → summary_of calls p ≡ summary_due (draws_of seed workers calls) }
{}

/// What generated scripts want depends only on the number of replies: the draws in turn, then the
/// observer's looks, then the end. All their calls are made at the moment 0, so they are the same
/// under each clock.
pub fn generated_wishes()
    ensures others { (conf : Conf) (worker : ℕ) (draws : List Draw) (replies : List Reply)
        → wanted conf (steps_of_draws worker draws) replies
        ≡ slice_get (wishes_of_draws worker draws ++ wish_to_end ∷ []) (length replies) }
    ensures observer { (conf : Conf) (draws : List Draw) (replies : List Reply)
        → wanted conf (steps_of_draws 0 draws ++ counters_read) replies
        ≡ slice_get (wishes_of_draws 0 draws ++ (wishes_of_looks ++ wish_to_end ∷ []))
        (length replies) }
    ensures timed { (clock : Clock) (seed workers calls : ℕ)
        → let scripts = observed (generated seed workers calls) in
        all_timed clock scripts ≡ scripts }
{}

/// If worker 0 has made its own calls and has seen all events of the others, and then only it makes
/// events, its looks come last.
pub fn looks_come_last()
    ensures { (workers calls : ℕ) (seen rest : List Event)
        → length (events_of 0 seen) ≡ calls
        → ((w : ℕ) → 0 < w → w < workers → length (events_of w seen) ≡ calls + 1)
        → ((w : ℕ) → 0 < w → w < workers → events_of w rest ≡ [])
        → IsObservedLast workers calls (marks_of (seen ++ rest)) }
{}
