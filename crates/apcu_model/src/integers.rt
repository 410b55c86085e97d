//! The value of an integer.

ghost use Rattle.std.specs.Prelude.{◌≡◌, [], ◌∷◌};
ghost use Rattle.php_graph.specs.declared.kind.Kind.TheVariants.{Int};

use php_graph::{Graph, Kind};
use std::alloc::Global;

/// The value that is this integer. It allocates no memory: the list of its further places is empty.
pub fn integer(alloc: Global, n: i64) -> Graph
    ensures { result ≡ Int n ∷ [] }
{
    Graph::from_places(Kind::Int(n), Vec::new(alloc), 2)
}
