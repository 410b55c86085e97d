//! Two workers, what one stores, and the begin and the end of a copy of it.

ghost use Rattle.std.specs.Prelude.{◌≡◌, ◌+◌, ◌≤◌, [], ◌∷◌, List, length, IfSome};
ghost use Rattle.php_graph.specs.declared.kind.Kind.{Kind};
ghost use Rattle.value_image.specs.Image.{IsImageOf};

use crate::steps::put;
use apcu_model::Conf;
use notation::{Cursor, read_value};
use php_graph::Graph;
use pin_table::{Copying, Pass, TableName};
use shared_cache::{Fresh, Pinned, Shared};
use std::alloc::Global;
use std::sync::Wait;

// 32 words for blocks: room for one array, and not for two.
pub(crate) const CONF: Conf = Conf {
    words: 64,
    slots: 32,
    ttl: 0,
    segments: 1,
};

pub(crate) fn array(alloc: Global) -> Option<Graph> {
    let mut from = Cursor::new(b"a:1:{i:0;i:5;}");
    read_value(alloc, &mut from).ok()
}

// The cache with the passes of its two workers.
pub(crate) fn opened<N: TableName>(fresh: Fresh) -> Option<(Shared<N>, Pass, Pass)>
    requires table { N.table ≡ fresh.table }
    requires conf { N.conf ≡ fresh.conf }
    requires budgets { N.budgets ≡ fresh.budgets }
    requires two { fresh.budgets ≡ 3 ∷ 5 ∷ [] }
    ensures first { IfSome result (λ s. s.1.table ≡ N.table) }
    ensures second { IfSome result (λ s. s.2.table ≡ N.table) }
    ensures left { IfSome result (λ s. s.1.known.left ≡ 3) }
    ensures left_other { IfSome result (λ s. s.2.known.left ≡ 5) }
{
    let (shared, mut passes, _) = fresh.name::<N>();
    let second = passes.pop()?;
    let first = passes.pop()?;
    Some((shared, first, second))
}

// The first worker stores a value and begins to copy it.
pub(crate) fn begin_copy<N: TableName, R: Wait>(
    rt: &R,
    shared: &Shared<N>,
    pass: Pass,
    value: &Graph,
) -> Option<Copying>
    requires table { pass.table ≡ N.table }
    requires left { 3 ≤ pass.known.left }
    ensures table { IfSome result (λ k. k.table ≡ N.table) }
    ensures image { IfSome result (λ k. (g : List Kind)
        × IsImageOf k.copy.content 0 (length k.copy.content) g) }
{
    let (pass, _) = put(rt, shared, pass, b"a", value, false);
    match shared.pin(rt, pass, b"a", 0) {
        Pinned::Hit(copying) => Some(copying),
        Pinned::Scalar(_, _) | Pinned::Miss(_) => None,
    }
}

// Whether the copy is that value.
pub(crate) fn end_copy<N: TableName>(
    alloc: Global,
    shared: &Shared<N>,
    copying: Copying,
    value: &Graph,
) -> bool
    requires table { copying.table ≡ N.table }
    requires image { (g : List Kind)
        × IsImageOf copying.copy.content 0 (length copying.copy.content) g }
{
    let (_, copied) = shared.copy_out(alloc, copying);
    match copied {
        Ok(copied) => copied.same(value),
        Err(_) => false,
    }
}
