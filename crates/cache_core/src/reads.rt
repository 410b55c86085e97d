//! Why look-ups may be answered first and counted later.

ghost use Rattle.std.specs.Prelude.{◌≡◌, ℕ, List, ◌∷◌, ◌++◌};
ghost use Rattle.apcu_model.specs.Cache.{Cache};
ghost use Rattle.apcu_model.specs.Expiry.{live_row};
ghost use Rattle.cache_core.specs.Uses.{fetched, seen_in};

/// Fetches change no result of a later look-up: it finds a row at the same place with the same
/// value, or none, as it would have without them.
pub fn reads_see_one_cache()
    ensures seen { (keys : List (List ℕ)) (key : List ℕ) (s t : ℕ) (c : Cache)
        → seen_in (live_row key t (fetched keys s c)) ≡ seen_in (live_row key t c) }
{}

/// Fetches of one moment leave the same cache in any order: any two consecutive ones may be
/// swapped.
pub fn reads_commute()
    ensures swapped { (front back : List (List ℕ)) (one other : List ℕ) (t : ℕ) (c : Cache)
        → fetched (front ++ one ∷ other ∷ back) t c ≡ fetched (front ++ other ∷ one ∷ back) t c }
{}
