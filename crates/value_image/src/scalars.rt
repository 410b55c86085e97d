//! Scalars as contents of images.

ghost use Rattle.std.specs.Prelude.{◌≡◌, [], ◌∷◌};
ghost use Rattle.php_graph.specs.declared.kind.Kind.TheVariants as kinds;
ghost use Rattle.php_graph.specs.Graph.{IsGraph};
ghost use Rattle.value_image.specs.Contained.{graph_of};

use crate::contents::Content;

/// Null as the content of an image.
pub fn null_content() -> Content<'static>
    ensures scalar { graph_of result ≡ kinds.Null ∷ [] }
    ensures graph { IsGraph (graph_of result) }
{
    Content::Null
}

/// A boolean as the content of an image.
pub fn bool_content(truth: bool) -> Content<'static>
    ensures scalar { graph_of result ≡ kinds.Bool truth ∷ [] }
    ensures graph { IsGraph (graph_of result) }
{
    Content::Bool(truth)
}

/// An integer as the content of an image.
pub fn int_content(number: i64) -> Content<'static>
    ensures scalar { graph_of result ≡ kinds.Int number ∷ [] }
    ensures graph { IsGraph (graph_of result) }
{
    Content::Int(number)
}
