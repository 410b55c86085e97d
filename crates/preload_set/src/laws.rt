//! Laws of bundles.

ghost use Rattle.std.specs.Prelude.{◌≡◌, ◌≤◌, ◌+◌, ◌-◌, ℕ, List, [], ◌∷◌, ◌++◌, length};
ghost use Rattle.std.specs.Prelude.{Contains, Some, None};
ghost use Rattle.std.specs.List.{AllByRecursion};
ghost use Rattle.apcu_model.specs.declared.conf.Clock.{Clock};
ghost use Rattle.apcu_model.specs.declared.conf.Conf.{Conf};
ghost use Rattle.apcu_model.specs.declared.journal.Mark.{Mark};
ghost use Rattle.apcu_model.specs.Conf.{IsGood};
ghost use Rattle.script_read.specs.declared.script.Step.{Step};
ghost use Rattle.script_read.specs.Budgets.{events_in};
ghost use Rattle.script_read.specs.Clock.{timed};
ghost use Rattle.script_read.specs.Patterns.{call_pattern};
ghost use Rattle.script_read.specs.Play.{Play, played, script_of};
ghost use Rattle.script_read.specs.Ranges.{AreRanged, HaveByteKeys};
ghost use Rattle.preload_set.specs.Bundle.{AreRecords, Record};
ghost use Rattle.preload_set.specs.Ties.{BundlesTake, BundlesAgain, BundlesAreOne};
ghost use Rattle.preload_set.specs.Loader.{loader_of, record_words, IsPlayedFirst};

use notation::readings_are_spellings;

/// Records that are read are those that are written there, and those that are written are read. So
/// bytes are at most one bundle.
pub fn readings_are_bundles()
    ensures takes { BundlesTake }
    ensures again { BundlesAgain }
    ensures one { BundlesAreOne }
{
    readings_are_spellings();
}

/// A loader's script is the same under each clock, makes an event for each record, and searches for
/// nothing. The same holds together with scripts that are in range, with keys of bytes.
pub fn loaders_only_store()
    ensures timed { (clock : Clock) (records : List Record)
        → timed clock (loader_of records) ≡ loader_of records }
    ensures events { (slots : ℕ) (records : List Record)
        → events_in slots (loader_of records) ≡ length records }
    ensures patterns { (records : List Record) (step : Step)
        → Contains (loader_of records) step → call_pattern step.call ≡ None }
    ensures ranged { (scripts : List (List Step)) (records : List Record) → AreRanged scripts
        → AreRanged (scripts ++ loader_of records ∷ []) }
    ensures keys { (bytes : List ℕ) (scripts : List (List Step)) (records : List Record)
        → AreRecords bytes records → HaveByteKeys scripts
        → HaveByteKeys (scripts ++ loader_of records ∷ []) }
{}

/// In a cache of one segment, a bundle whose blocks together fit after the slots is loaded whole,
/// if its loader comes first: a journal that can be played begins with the loader's stores and its
/// end, and whatever follows, the cache after these has exactly the bundle's values.
pub fn bundles_load()
    ensures { (conf : Conf) (scripts : List (List Step)) (worker : ℕ) (records : List Record)
        (own others : List Mark) (p : Play)
        → IsGood conf → conf.segments ≡ 1 → record_words records ≤ conf.words - conf.slots
        → script_of scripts worker ≡ Some (loader_of records)
        → AllByRecursion (λ mark. mark.worker ≡ worker) own
        → length own ≡ length records + 1
        → played conf scripts (own ++ others) ≡ Some p
        → IsPlayedFirst conf scripts worker records own }
{}
