//! Which histories of events are plays, and what one more event changes.

ghost use Rattle.std.specs.Prelude.{◌≡◌, ℕ, ◌<◌, ◌==◌, cond, List, [], ◌∷◌, ◌++◌, length, Some};
ghost use Rattle.apcu_model.specs.declared.conf.Conf.{Conf};
ghost use Rattle.apcu_model.specs.declared.request.Event.{Event};
ghost use Rattle.apcu_model.specs.History.{stage_of, reply_in, marks_of};
ghost use Rattle.pin_table.specs.Events.{events_of};
ghost use Rattle.script_read.specs.declared.script.Step.{Step};
ghost use Rattle.script_read.specs.Play.{IsLegal, IsCompletePlay, played, replies_of};
ghost use Rattle.play_laws.specs.Own.{own_replies};
ghost use Rattle.play_laws.specs.Whole.{IsPlayedOut, play_of};

/// What follows from one more event, and from more events of others: a worker's own replies grow
/// only by the reply of its own event, which is that of the single-threaded cache at the event's
/// place. There are as many of them as the worker has events.
pub fn one_event_own()
    ensures more { (conf : Conf) (w : ℕ) (history : List Event) (e : Event)
        → own_replies conf w (history ++ e ∷ [])
        ≡ own_replies conf w history
        ++ cond (e.worker == w) (reply_in (stage_of conf history) e ∷ []) [] }
    ensures others { (conf : Conf) (w : ℕ) (history between : List Event)
        → events_of w between ≡ []
        → own_replies conf w (history ++ between) ≡ own_replies conf w history }
    ensures count { (conf : Conf) (w : ℕ) (history : List Event)
        → length (own_replies conf w history) ≡ length (events_of w history) }
{}

/// A history of events in which each mask is legal, each worker makes in turn the requests that its
/// script wants after its own replies, until nothing more is wanted, and no other worker makes
/// requests, is a play: that of the journal of its marks. The play ends in the cache that the
/// single-threaded one would be after these events, and each worker got its own replies. No worker
/// wants anything after it.
pub fn histories_are_plays()
    ensures play { (conf : Conf) (scripts : List (List Step)) (history : List Event)
        → IsPlayedOut conf scripts history
        → played conf scripts (marks_of history) ≡ Some (play_of conf scripts history) }
    ensures replies { (conf : Conf) (scripts : List (List Step)) (history : List Event) (w : ℕ)
        → w < length scripts
        → replies_of (play_of conf scripts history) w ≡ own_replies conf w history }
    ensures legal { (conf : Conf) (scripts : List (List Step)) (history : List Event)
        → IsPlayedOut conf scripts history → IsLegal conf scripts (marks_of history) }
    ensures complete { (conf : Conf) (scripts : List (List Step)) (history : List Event)
        → IsPlayedOut conf scripts history → IsCompletePlay conf scripts (marks_of history) }
{}
