//! Laws of outputs, of their lines and of the length of a journal.

ghost use Rattle.std.specs.Prelude.{◌≡◌, ℕ, ◌<◌, ◌≤◌, ◌^◌, List, length, Some};
ghost use Rattle.apcu_model.specs.declared.conf.Conf.{Conf};
ghost use Rattle.apcu_model.specs.declared.journal.Mark.{Mark};
ghost use Rattle.apcu_model.specs.declared.limits.TheConstants.{MOST_WORKERS};
ghost use Rattle.script_read.specs.declared.script.Step.{Step};
ghost use Rattle.script_read.specs.Budgets.{all_events};
ghost use Rattle.script_read.specs.Play.{Play, played};
ghost use Rattle.reply_text.specs.Output.{IsOutput, mark_line};
ghost use Rattle.run_verify.specs.Verdicts.{mark_of_line, verdict_of};
ghost use Rattle.run_verify.specs.OutputLines.{IsInBits};
ghost use Rattle.run_verify.specs.declared.verifying.Verdict.TheVariants.{Yes};

/// A line spells a mark exactly if it is printed for one of a worker below `MOST_WORKERS` and a
/// mask of 64 bits, and then it spells that mark.
pub fn lines_tell_marks()
    ensures lines { (line : List ℕ) (mark : Mark) → mark_of_line line ≡ Some mark
        → (line ≡ mark_line mark) × IsInBits mark }
    ensures read { (mark : Mark) → IsInBits mark → mark_of_line (mark_line mark) ≡ Some mark }
{}

/// A journal that can be played has no more marks than its scripts may make events, with the end of
/// each worker.
pub fn plays_are_short()
    ensures { (conf : Conf) (scripts : List (List Step)) (journal : List Mark) (p : Play)
        → played conf scripts journal ≡ Some p
        → length journal ≤ all_events conf.slots scripts }
{}

/// The verdict is yes exactly for the outputs of legal journals that play the scripts to their
/// ends, with at most `MOST_WORKERS` workers.
pub fn yes_is_an_output()
    ensures only { (conf : Conf) (scripts : List (List Step)) (output : List ℕ)
        → verdict_of conf scripts output ≡ Yes → IsOutput conf scripts output }
    ensures each { (conf : Conf) (scripts : List (List Step)) (output : List ℕ)
        → length scripts ≤ MOST_WORKERS → IsOutput conf scripts output
        → verdict_of conf scripts output ≡ Yes }
{}
