//! The name of one shared table, as a type.

use std::marker::Brand;

/// The name of one shared table, as a type, so that the type says what is behind a lock.
///
/// It has no functions. Its members exist in contracts alone: which table it is, the cache's
/// configuration, and how many events each worker may make. `std::marker::Brand` is such a name:
/// what works on a table is a function over `N: TableName`, and its caller calls it with `Brand`
/// and picks the members for that call, in the `Invariants.antt` of its proofs.
pub trait TableName {
    ghost use Rattle.std.specs.Prelude.{ℕ, List};
    ghost use Rattle.atomic_table.specs.Seated.{TableId};
    ghost use Rattle.apcu_model.specs.declared.conf.Conf.{Conf};

    ghost table: { TableId };

    ghost conf: { Conf };

    ghost budgets: { List ℕ };
}

// The caller of a function over a name picks the members at the call.
impl TableName for Brand {
    ghost use Rattle.std.specs.Prelude.{[]};
    ghost use Rattle.pin_table.specs.Names.{no_table, no_conf};

    ghost table = { no_table };

    ghost conf = { no_conf };

    ghost budgets = { [] };
}
