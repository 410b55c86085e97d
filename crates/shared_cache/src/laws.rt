//! What follows from the definitions that the contracts use.

ghost use Rattle.shared_cache.specs.Turns.{CallsInTurn};

/// If a call has returned, its worker has then met another one, or has ended and the other one
/// learned of it, and then that one makes a call, the event of the first call comes before that of
/// the second in the history.
pub fn calls_in_turn()
    ensures { CallsInTurn }
{}
