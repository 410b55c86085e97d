//! What follows from the definitions that the rule and the contracts use.

ghost use Rattle.pin_table.specs.Laws.{RuleLaws};

/// What follows from the definitions that the rule and the contracts use: what steps carry gives
/// the rule in all seven parts; a block is named exactly if a window has its place; it is held
/// exactly if it is named by the window of a worker of the mask; and what one more event adds to a
/// worker's own events, and to whether its last event is a fetch.
pub fn rule_laws()
    ensures { RuleLaws }
{}
