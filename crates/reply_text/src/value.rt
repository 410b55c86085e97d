//! A value, or a reference to one.

use php_graph::Graph;

/// A value, or a reference to one.
pub trait Value {
    ghost use Rattle.std.specs.Prelude.{◌≡◌, List};
    ghost use Rattle.php_graph.specs.declared.kind.Kind.{Kind};

    ghost kinds_of: { Self → List Kind };

    /// The value.
    fn graph(&self) -> &Graph
        ensures { result.now ≡ kinds_of self.now };
}

impl Value for Graph {
    ghost kinds_of = { λ g. g };

    fn graph(&self) -> &Graph {
        self
    }
}

impl Value for &Graph {
    ghost kinds_of = { λ g. g.now };

    fn graph(&self) -> &Graph {
        *self
    }
}
