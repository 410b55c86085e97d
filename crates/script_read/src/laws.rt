//! Laws of scripts.

ghost use Rattle.std.specs.Prelude.{◌≡◌, ◌<◌, ℕ, List, length};
ghost use Rattle.std.specs.Thread.{IsSync};
ghost use Rattle.apcu_model.specs.declared.conf.Clock.{Clock};
ghost use Rattle.apcu_model.specs.declared.conf.Conf.{Conf};
ghost use Rattle.apcu_model.specs.declared.request.Request.{Request};
ghost use Rattle.apcu_model.specs.declared.request.Reply.{Reply};
ghost use Rattle.script_read.specs.declared.call.Call.{Call};
ghost use Rattle.script_read.specs.declared.script.Step.{Step};
ghost use Rattle.script_read.specs.Calls.{event_bound};
ghost use Rattle.script_read.specs.Clock.{all_timed};
ghost use Rattle.script_read.specs.contracts.script.Script as script_type;
ghost use Rattle.script_read.specs.contracts.script.Scripts as scripts_type;
ghost use Rattle.script_read.specs.Grammar.{AreScripts};
ghost use Rattle.script_read.specs.Ranges.{AreRanged, HaveByteKeys};
ghost use Rattle.script_read.specs.Ties.{ScriptsTake, ScriptsAgain, ScriptsAreOne};
ghost use Rattle.script_read.specs.Play.{next_of, Asks};

use notation::readings_are_spellings;

/// Scripts that are read are those that the bytes spell, and those that bytes spell are read. So
/// bytes spell at most one list of scripts.
pub fn readings_are_scripts()
    ensures takes { ScriptsTake }
    ensures again { ScriptsAgain }
    ensures one { ScriptsAreOne }
{
    readings_are_spellings();
}

/// Scripts that bytes spell are in range: the arguments of all their calls are, and the keys that
/// the calls name consist of bytes from 0 to 255. This holds under each clock.
pub fn scripts_are_ranged()
    ensures ranged { (bytes : List ℕ) (scripts : List (List Step)) → AreScripts bytes scripts
        → AreRanged scripts }
    ensures keys { (bytes : List ℕ) (scripts : List (List Step)) → AreScripts bytes scripts
        → HaveByteKeys scripts }
    ensures timed { (clock : Clock) (scripts : List (List Step)) → AreRanged scripts
        → AreRanged (all_timed clock scripts) }
    ensures timed_keys { (clock : Clock) (scripts : List (List Step)) → HaveByteKeys scripts
        → HaveByteKeys (all_timed clock scripts) }
{}

/// A call makes no more requests than its events are counted.
pub fn calls_ask_few()
    ensures { (conf : Conf) (call : Call) (replies : List Reply) (request : Request)
        → next_of conf call replies ≡ Asks request → length replies < event_bound conf.slots call }
{}

/// A script, and all scripts together, may be read on any thread.
pub fn scripts_cross()
    ensures script { IsSync script_type.the_row }
    ensures scripts { IsSync scripts_type.the_row }
{}
