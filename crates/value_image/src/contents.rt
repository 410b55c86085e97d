//! The content of an image: a graph, or a scalar or a byte string without a graph.

ghost use Rattle.std.specs.Prelude.{◌≡◌, ◌<◌, ◌^◌, [], ◌∷◌, length};
ghost use Rattle.php_graph.specs.declared.kind.Kind.TheVariants as kinds;
ghost use Rattle.php_graph.specs.Graph.{IsGraph};
ghost use Rattle.php_graph.specs.Size.{block_size, image_length};
ghost use Rattle.seg_words.specs.Kept.{KeptBeside};
ghost use Rattle.value_image.specs.Image.{image_of};
ghost use Rattle.value_image.specs.Rows.{written, MayWrite};
ghost use Rattle.value_image.specs.Contained.{graph_of};

use crate::write::{BOOL, NULL, persist};
use crate::write_members::{INT, put_one, put_text, put_two};
use php_graph::Graph;
use seg_words::{HEAD_WORDS, Segment, words_in};

/// The content of an image. A scalar or a byte string represents the graph that has it as its only
/// place.
#[derive(Clone, Copy, Drop)]
pub enum Content<'a> {
    /// The places of a graph.
    Graph(&'a Graph),
    /// A byte string, without a graph.
    Text(&'a [u8]),
    /// Null.
    Null,
    /// A boolean.
    Bool(bool),
    /// An integer.
    Int(i64),
}

/// A byte string as the content of an image.
pub fn text_content(bytes: &[u8]) -> Content<'_>
    requires short { length bytes.now < 2 ^ 32 }
    ensures text { graph_of result ≡ kinds.Str bytes.now ∷ [] }
    ensures graph { IsGraph (graph_of result) }
{
    Content::Text(bytes)
}

/// The length of the image, in words.
pub fn content_words(content: &Content<'_>) -> u64
    requires graph { IsGraph (graph_of content.now) }
    ensures words { result ≡ image_length (graph_of content.now) }
    ensures small { result < 2 ^ 60 }
{
    match content {
        Content::Graph(g) => g.words(),
        Content::Text(bytes) => 1 + u64::from(words_in(bytes.len() as u32)),
        Content::Null | Content::Bool(_) => 1,
        Content::Int(_) => 2,
    }
}

/// The words of an entry's block: its head, its key and the image, filled up to an even number.
pub fn content_block_words(key_len: u64, content: &Content<'_>) -> u64
    requires short { key_len < 2 ^ 32 }
    requires graph { IsGraph (graph_of content.now) }
    ensures { result ≡ block_size key_len (graph_of content.now) }
{
    let words = u64::from(HEAD_WORDS + words_in(key_len as u32)) + content_words(content);
    words + words % 2
}

/// Writes the image from place `at` on. It takes no memory.
pub fn persist_content<S: Segment>(seg: &mut S, at: u32, content: &Content<'_>)
    requires graph { IsGraph (graph_of content.now) }
    requires apart { MayWrite (S.words seg.old) (S.aside seg.old).windows at
        (image_length (graph_of content.now)) }
    ensures words { S.words seg.new
        ≡ written (S.words seg.old) at (image_of (graph_of content.now)) }
    ensures beside { KeptBeside S.WordsIn seg.old seg.new }
{
    match content {
        Content::Graph(g) => persist(seg, at, g),
        Content::Text(bytes) => {
            put_text(seg, at, bytes);
        }
        Content::Null => {
            put_one(seg, at, NULL);
        }
        Content::Bool(truth) => {
            put_one(seg, at, BOOL + 8 * u64::from(*truth));
        }
        Content::Int(number) => {
            put_two(seg, at, INT, number.cast_unsigned());
        }
    }
}
