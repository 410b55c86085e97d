//! Writing the block of an entry.

ghost use Rattle.std.specs.Prelude.{◌≡◌, ◌+◌, ◌<◌, ◌^◌, ◌++◌, length};
ghost use Rattle.seg_words.specs.Kept.{KeptBeside};
ghost use Rattle.seg_words.specs.Layout.{words_in};
ghost use Rattle.php_graph.specs.Graph.{IsGraph};
ghost use Rattle.php_graph.specs.Size.{image_length};
ghost use Rattle.value_image.specs.Contained.{graph_of};
ghost use Rattle.value_image.specs.Rows.{written, MayWrite};
ghost use Rattle.entry_slots.specs.EntryWords.{entry_words};

use crate::lower::lower_laws;
use seg_words::{HEAD_WORDS, Segment, words_in};
use value_image::{Content, content_words, persist_content, put_bytes};

// The head of a new entry, except what its key and its value determine.
#[derive(Clone, Copy)]
pub(crate) struct NewHead {
    // The place of the next entry in its chain, or 0.
    pub(crate) next: u32,
    pub(crate) ttl: u32,
    // The moment at which it is stored.
    pub(crate) now: u64,
    pub(crate) number: u64,
}

// Writes the words of an entry's block from word 1 on.
pub(crate) fn put_entry<S: Segment>(
    seg: &mut S,
    at: u32,
    key: &[u8],
    content: &Content<'_>,
    new_head: NewHead,
)
    requires short { length key.now < 2 ^ 32 }
    requires graph { IsGraph (graph_of content.now) }
    requires small { image_length (graph_of content.now) < 2 ^ 32 }
    requires apart { MayWrite (S.words seg.old) (S.aside seg.old).windows (at + 1)
        (11 + words_in (length key.now) + image_length (graph_of content.now)) }
    ensures words { S.words seg.new
        ≡ written (S.words seg.old) (at + 1) (entry_words key.now (graph_of content.now) new_head) }
    ensures beside { KeptBeside S.WordsIn seg.old seg.new }
{
    lower_laws();
    let first = [
        u64::from(new_head.next),
        key.len() as u64,
        content_words(content),
        u64::from(new_head.ttl),
        new_head.now,
        new_head.now,
        new_head.now,
        0,
    ];
    put_head(seg, at + 1, &first, &[0, new_head.number, 0]);
    put_bytes(seg, at + HEAD_WORDS, key);
    persist_content(seg, at + HEAD_WORDS + words_in(key.len() as u32), content);
}

// Writes eight words at once from a place on, and then the last ones of a head.
fn put_head<S: Segment>(seg: &mut S, at: u32, first: &[u64; 8], last: &[u64; 3])
    requires { MayWrite (S.words seg.old) (S.aside seg.old).windows at 11 }
    ensures words { S.words seg.new ≡ written (S.words seg.old) at (first.now ++ last.now) }
    ensures beside { KeptBeside S.WordsIn seg.old seg.new }
{
    lower_laws();
    seg.store_eight(at, first);
    put_words(seg, at + 8, last);
}

// Writes words from a place on.
fn put_words<S: Segment>(seg: &mut S, at: u32, run: &[u64])
    requires { MayWrite (S.words seg.old) (S.aside seg.old).windows at (length run.now) }
    ensures words { S.words seg.new ≡ written (S.words seg.old) at run.now }
    ensures beside { KeptBeside S.WordsIn seg.old seg.new }
{
    lower_laws();
    for i in 0..run.len() {
        seg.store(at + i as u32, run[i]);
    }
}
