//! Laws of all graphs and of all that is written.

ghost use Rattle.std.specs.Prelude.{◌≡◌, List, Some};
ghost use Rattle.std.specs.List.{AllByRecursion};
ghost use Rattle.php_graph.specs.declared.kind.Kind.{Kind};
ghost use Rattle.php_graph.specs.declared.item.Item.{Item};
ghost use Rattle.php_graph.specs.declared.item.Wants.TheVariants.{Done};
ghost use Rattle.php_graph.specs.Graph.{IsGraph};
ghost use Rattle.php_graph.specs.Building.{Draft, nothing_drafted, all_drafted, drafted, wants_of};
ghost use Rattle.php_graph.specs.Building.{FitsItem, items_of};

/// Items that fit and are not refused, and after which nothing is wanted, have written a graph, and
/// are the items of that graph: there is one way to write each. If a graph is drafted with nothing
/// open, nothing is wanted.
pub fn written_graphs()
    ensures graph { (is : List Item) (d : Draft) → AllByRecursion FitsItem is
        → drafted nothing_drafted is ≡ Some d → wants_of d ≡ Done → IsGraph d.places }
    ensures alone { (is : List Item) (d : Draft) → AllByRecursion FitsItem is
        → drafted nothing_drafted is ≡ Some d → wants_of d ≡ Done → d ≡ all_drafted d.places }
    ensures items { (is : List Item) (d : Draft) → AllByRecursion FitsItem is
        → drafted nothing_drafted is ≡ Some d → wants_of d ≡ Done → is ≡ items_of d.places }
    ensures done { (g : List Kind) → IsGraph g → wants_of (all_drafted g) ≡ Done }
{}

/// The items of a graph are all accepted, one after the other, and lead to that graph with nothing
/// open: each graph can be written.
pub fn graphs_are_written()
    ensures { (g : List Kind) → IsGraph g
        → drafted nothing_drafted (items_of g) ≡ Some (all_drafted g) }
{}
