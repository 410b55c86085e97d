//! The limits that the pages state.

ghost use Rattle.conf_read.specs.Limits.{AreLimits};

/// Each limit is the number that the pages state. Contracts cite limits only by their names, so no
/// other clause would refuse one that is smaller.
pub fn limits_are_as_named()
    ensures { AreLimits }
{}
