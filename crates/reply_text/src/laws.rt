//! The output determines its journal.

ghost use Rattle.std.specs.Prelude.{◌≡◌, ℕ, ◌≤◌, ◌++◌, List, length};
ghost use Rattle.apcu_model.specs.declared.conf.Conf.{Conf};
ghost use Rattle.apcu_model.specs.declared.journal.Mark.{Mark};
ghost use Rattle.apcu_model.specs.declared.limits.TheConstants.{MOST_WORKERS};
ghost use Rattle.script_read.specs.declared.script.Step.{Step};
ghost use Rattle.script_read.specs.Play.{IsLegal};
ghost use Rattle.reply_text.specs.Output.{journal_lines, output_of};
ghost use Rattle.reply_text.specs.InRange.{AreInRange};

/// The output determines its journal. Whatever marks are read from the end of an output, they are
/// those of its journal; so legal journals of at most `MOST_WORKERS` workers that have the same
/// output are the same, and the journal of a run's contract is the printed one. Nothing else has to
/// be known of what the workers print, not even that both outputs are of one cache and of the same
/// scripts.
pub fn outputs_tell_journals()
    ensures read { (conf : Conf) (scripts : List (List Step)) (journal other : List Mark)
        (before : List ℕ) → length scripts ≤ MOST_WORKERS → IsLegal conf scripts journal
        → AreInRange other → output_of conf scripts journal ≡ before ++ journal_lines other
        → journal ≡ other }
    ensures one { (conf other_conf : Conf) (scripts other_scripts : List (List Step))
        (journal other : List Mark) → length scripts ≤ MOST_WORKERS
        → length other_scripts ≤ MOST_WORKERS
        → IsLegal conf scripts journal → IsLegal other_conf other_scripts other
        → output_of conf scripts journal ≡ output_of other_conf other_scripts other
        → journal ≡ other }
{}
