//! A pool that is left alone replies as a map of its own does.

ghost use Rattle.std.specs.Prelude.{◌≡◌, ℕ, List, Some};
ghost use Rattle.apcu_model.specs.declared.conf.Clock.{Clock};
ghost use Rattle.apcu_model.specs.declared.conf.Conf.{Conf};
ghost use Rattle.apcu_model.specs.declared.request.Event.{Event};
ghost use Rattle.apcu_model.specs.declared.journal.Mark.{Mark};
ghost use Rattle.apcu_model.specs.declared.request.Request.{Request};
ghost use Rattle.script_read.specs.declared.script.Step.{Step};
ghost use Rattle.script_read.specs.Clock.{all_timed};
ghost use Rattle.script_read.specs.Grammar.{AreScripts};
ghost use Rattle.script_read.specs.Play.{IsLegal};
ghost use Rattle.script_read.specs.Ranges.{AreRanged, HaveByteKeys};
ghost use Rattle.simple_pool.specs.declared.call.PoolCall.{PoolCall};
ghost use Rattle.simple_pool.specs.Requests.{IsGoodCall, request_at};
ghost use Rattle.pool_laws.specs.Calls.{AreOfBytes, HavePoolForms, Asked, CallsLeaveAlone};
ghost use Rattle.pool_laws.specs.Calls.{CallsStandAlone, HasPoolForm, asked_events};
ghost use Rattle.pool_laws.specs.Plays.{PoolStandsAlone, asked_in, answered_by};
ghost use Rattle.pool_laws.specs.Pools.{LeavesAlone, StandsAlone};

use apcu_model::{events_keep, one_event_more};
use script_read::scripts_are_ranged;

/// A pool keeps its keys in the cache together with all other keys. If it is left alone, each reply
/// to its events is that of a map of its own that began empty and saw only these events.
pub fn pools_stand_alone()
    ensures { (name : List ℕ) (conf : Conf) (history : List Event)
        → LeavesAlone name conf history → StandsAlone name conf history }
{
    one_event_more();
    events_keep();
}

/// The same for the events of a pool's calls, if each event is known with the pool whose call made
/// it and all keys consist of bytes.
pub fn calls_stand_alone()
    ensures { (name : List ℕ) (conf : Conf) (asked : List Asked) → HavePoolForms asked
        → AreOfBytes (asked_events asked) → CallsLeaveAlone name conf asked
        → CallsStandAlone name conf asked }
{
    pools_stand_alone();
}

/// The request of a pool's call has the pool's form: it names keys of the pool, or clears it.
pub fn calls_are_tied()
    ensures { (call : PoolCall) (i : ℕ) (request : Request) → IsGoodCall call
        → request_at call i ≡ Some request → HasPoolForm (Some call.pool) request }
{}

/// In a legal journal, whatever the scripts and the interleaving: the replies of a pool that is
/// left alone are those of a map of its own that began empty and saw only the pool's events. The
/// scripts are any that bytes spell, under either clock, or any in range with keys of bytes.
pub fn pools_in_plays()
    ensures spelled { (name : List ℕ) (conf : Conf) (clock : Clock) (bytes : List ℕ)
        (scripts : List (List Step)) (journal : List Mark)
        → let timed = all_timed clock scripts in let told = answered_by conf timed journal in
        AreScripts bytes scripts → IsLegal conf timed journal
        → CallsLeaveAlone name conf (asked_in told) → PoolStandsAlone name conf told }
    ensures ranged { (name : List ℕ) (conf : Conf) (scripts : List (List Step))
        (journal : List Mark) → let told = answered_by conf scripts journal in
        AreRanged scripts → HaveByteKeys scripts → IsLegal conf scripts journal
        → CallsLeaveAlone name conf (asked_in told) → PoolStandsAlone name conf told }
{
    calls_are_tied();
    calls_stand_alone();
    scripts_are_ranged();
}
