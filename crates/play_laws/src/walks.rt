//! What the steps of an iterator return together, in histories and in journals.

ghost use Rattle.std.specs.Prelude.{◌≡◌, ℕ, ◌<◌, ◌≤◌, List, [], ◌++◌, length, Contains, IsTrue};
ghost use Rattle.std.specs.Prelude.{Option, None, Some};
ghost use Rattle.std.specs.List.{list_all};
ghost use Rattle.apcu_model.specs.declared.conf.Conf.{Conf};
ghost use Rattle.apcu_model.specs.declared.searching.Pattern.{Pattern};
ghost use Rattle.apcu_model.specs.declared.searching.List.TheVariants.{Active, Deleted};
ghost use Rattle.apcu_model.specs.declared.searching.Fields.{Fields};
ghost use Rattle.apcu_model.specs.declared.items.ItemRow.{ItemRow};
ghost use Rattle.apcu_model.specs.declared.journal.Mark.{Mark};
ghost use Rattle.apcu_model.specs.declared.request.Event.{Event};
ghost use Rattle.apcu_model.specs.Cache.{Cache};
ghost use Rattle.apcu_model.specs.Chunks.{chunk_of};
ghost use Rattle.apcu_model.specs.History.{stage_of};
ghost use Rattle.apcu_model.specs.Rows.{are_apart};
ghost use Rattle.apcu_model.specs.SlotOrder.{slot_of};
ghost use Rattle.play_laws.specs.JournalEvents.{events_from};
ghost use Rattle.script_read.specs.declared.call.Call.TheVariants.{Walk};
ghost use Rattle.script_read.specs.declared.script.Step.{Step};
ghost use Rattle.script_read.specs.Play.{Leaves, Play, next_of, nothing_played, played};
ghost use Rattle.play_laws.specs.Calls.{IsAskedIn, replies_in, wanted_by};
ghost use Rattle.play_laws.specs.Exchanges.{IsWalk, answered_chunks, answered_keys, exchanges_of};
ghost use Rattle.play_laws.specs.Exchanges.{steps_in};
ghost use Rattle.play_laws.specs.Journals.{MakesCall, answered_between};
ghost use Rattle.play_laws.specs.Walks.{WalkStep, AreSteps, walk_chunks, walk_keys, times_given};
ghost use Rattle.play_laws.specs.Walks.{is_under_way, is_whole_walk, has_item};

use apcu_model::events_keep;

/// What the steps of an iterator over the active rows return together, whatever is done to the
/// cache between them: no key twice, however far the walk has come; and once it has reached the
/// end, exactly once each key that was present, matching and not hard expired at each step. For a
/// key that was added or dropped meanwhile it may return one item or none.
pub fn walks_give_once()
    ensures once { (wanted : Option Pattern) (size : ℕ) (fields : Fields) (conf : Conf)
        (steps : List WalkStep) (key : List ℕ) → AreSteps conf steps
        → times_given key (walk_keys wanted size fields steps) ≤ 1 }
    ensures all { (wanted : Option Pattern) (size : ℕ) (fields : Fields) (conf : Conf)
        (steps : List WalkStep) (key : List ℕ) → 1 ≤ conf.slots → AreSteps conf steps
        → IsTrue (is_whole_walk conf.slots (walk_chunks wanted size fields 0 steps))
        → IsTrue (list_all (has_item wanted key) steps)
        → times_given key (walk_keys wanted size fields steps) ≡ 1 }
{}

/// How the steps of a walk advance. Each of them, if it is to return at least one item, gets
/// further as long as slots are left, so a walk has at most as many steps as there are slots: fewer
/// if it continues. A step returns rows of the slots that it passes. Over the removed rows a walk
/// is one step.
pub fn steps_of_walks()
    ensures further { (wanted : Option Pattern) (from size : ℕ) (fields : Fields) (t : ℕ)
        (c : Cache) → 1 ≤ size → from < c.conf.slots
        → from < (chunk_of wanted from size Active fields t c).next }
    ensures within { (wanted : Option Pattern) (from size : ℕ) (fields : Fields) (t : ℕ)
        (c : Cache) → (chunk_of wanted from size Active fields t c).next ≤ c.conf.slots }
    ensures slots { (wanted : Option Pattern) (from size : ℕ) (fields : Fields) (t : ℕ)
        (c : Cache) (item : ItemRow)
        → Contains (chunk_of wanted from size Active fields t c).items item
        → (from ≤ slot_of c.conf item.key)
        × (slot_of c.conf item.key < (chunk_of wanted from size Active fields t c).next) }
    ensures removed { (wanted : Option Pattern) (from size : ℕ) (fields : Fields) (t : ℕ)
        (c : Cache) → (chunk_of wanted from size Deleted fields t c).next ≡ c.conf.slots }
    ensures fewer { (wanted : Option Pattern) (size : ℕ) (fields : Fields) (conf : Conf)
        (steps : List WalkStep) → 1 ≤ size → 1 ≤ conf.slots → AreSteps conf steps
        → IsTrue (is_under_way conf.slots (walk_chunks wanted size fields 0 steps))
        → length steps < conf.slots }
    ensures most { (wanted : Option Pattern) (size : ℕ) (fields : Fields) (conf : Conf)
        (steps : List WalkStep) → 1 ≤ size → 1 ≤ conf.slots → AreSteps conf steps
        → IsTrue (is_whole_walk conf.slots (walk_chunks wanted size fields 0 steps))
        → length steps ≤ conf.slots }
{}

/// The same for a worker's walk in a history of many workers, whatever the others do between its
/// steps: `events` come after those of `before`, and the worker's among them are the walk. In every
/// history the cache keeps its shape, and no two of its rows have the same key.
pub fn walks_in_histories()
    ensures shape { (conf : Conf) (history : List Event)
        → (stage_of conf history).cache.conf ≡ conf }
    ensures apart { (conf : Conf) (history : List Event)
        → IsTrue (are_apart (stage_of conf history).cache.rows) }
    ensures given { (wanted : Option Pattern) (size : ℕ) (fields : Fields) (conf : Conf)
        (before events : List Event) (w : ℕ) → let own = exchanges_of conf before events w in
        IsWalk wanted size fields own
        → answered_chunks own ≡ walk_chunks wanted size fields 0 (steps_in own) }
    ensures once { (wanted : Option Pattern) (size : ℕ) (fields : Fields) (conf : Conf)
        (before events : List Event) (w : ℕ) (key : List ℕ)
        → let own = exchanges_of conf before events w in IsWalk wanted size fields own
        → times_given key (answered_keys own) ≤ 1 }
    ensures all { (wanted : Option Pattern) (size : ℕ) (fields : Fields) (conf : Conf)
        (before events : List Event) (w : ℕ) (key : List ℕ)
        → let own = exchanges_of conf before events w in 1 ≤ conf.slots
        → IsWalk wanted size fields own
        → IsTrue (is_whole_walk conf.slots (answered_chunks own))
        → IsTrue (list_all (has_item wanted key) (steps_in own))
        → times_given key (answered_keys own) ≡ 1 }
{
    events_keep();
}

/// The requests of a worker's call of an iterator over the active rows are such a walk: the events
/// of a worker in which it makes in turn the requests that the call wants after its own replies. If
/// the call wants nothing more, and each step was to return at least one item, the walk has reached
/// the end.
pub fn calls_are_walks()
    ensures walk { (conf : Conf) (t : ℕ) (wanted : Option Pattern) (fields : Fields) (size : ℕ)
        (before events : List Event) (w : ℕ)
        → IsAskedIn conf t (Walk wanted fields size Active) before events w
        → IsWalk wanted size fields (exchanges_of conf before events w) }
    ensures whole { (conf : Conf) (t : ℕ) (wanted : Option Pattern) (fields : Fields) (size : ℕ)
        (before events : List Event) (w : ℕ) → 1 ≤ size → 1 ≤ conf.slots
        → IsAskedIn conf t (Walk wanted fields size Active) before events w
        → wanted_by conf t (Walk wanted fields size Active) (replies_in conf before events w)
        ≡ None
        → IsTrue (is_whole_walk conf.slots (answered_chunks (exchanges_of conf before events w))) }
{
    events_keep();
}

/// The same for a legal journal. Between two points of its play a worker makes a call: then its
/// requests in the events of the journal between them are what the call wants in turn, and the
/// replies there are those of the play. So an iterator over the active rows returns no key twice;
/// and once it is done, exactly once each key that was present, matching and not hard expired at
/// each step.
pub fn walks_in_journals()
    ensures asked { (conf : Conf) (scripts : List (List Step)) (before during : List Mark)
        (p q : Play) (w : ℕ) (step : Step) → played conf scripts before ≡ Some p
        → played conf scripts (before ++ during) ≡ Some q → MakesCall conf scripts p q w step
        → let early = events_from conf scripts (nothing_played conf scripts) before in
        IsAskedIn conf step.t step.call early (events_from conf scripts p during) w }
    ensures replies { (conf : Conf) (scripts : List (List Step)) (before during : List Mark)
        (p q : Play) (w : ℕ) (step : Step) → played conf scripts before ≡ Some p
        → played conf scripts (before ++ during) ≡ Some q → MakesCall conf scripts p q w step
        → let early = events_from conf scripts (nothing_played conf scripts) before in
        replies_in conf early (events_from conf scripts p during) w ≡ answered_between p q w }
    ensures once { (conf : Conf) (scripts : List (List Step)) (before during : List Mark)
        (p q : Play) (w : ℕ) (step : Step) (wanted : Option Pattern) (size : ℕ) (fields : Fields)
        (key : List ℕ) → played conf scripts before ≡ Some p
        → played conf scripts (before ++ during) ≡ Some q → MakesCall conf scripts p q w step
        → step.call ≡ Walk wanted fields size Active
        → let early = events_from conf scripts (nothing_played conf scripts) before in
        let own = exchanges_of conf early (events_from conf scripts p during) w in
        times_given key (answered_keys own) ≤ 1 }
    ensures all { (conf : Conf) (scripts : List (List Step)) (before during : List Mark)
        (p q : Play) (w : ℕ) (step : Step) (wanted : Option Pattern) (size : ℕ) (fields : Fields)
        (key : List ℕ) → 1 ≤ size → 1 ≤ conf.slots → played conf scripts before ≡ Some p
        → played conf scripts (before ++ during) ≡ Some q → MakesCall conf scripts p q w step
        → step.call ≡ Walk wanted fields size Active
        → next_of conf step.call (answered_between p q w) ≡ Leaves []
        → let early = events_from conf scripts (nothing_played conf scripts) before in
        let own = exchanges_of conf early (events_from conf scripts p during) w in
        IsTrue (list_all (has_item wanted key) (steps_in own))
        → times_given key (answered_keys own) ≡ 1 }
{
    events_keep();
}
