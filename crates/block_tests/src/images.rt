//! Images of values, written and read again.

ghost use Rattle.std.specs.Prelude.{◌≡◌, ℕ, ◌+◌, ◌<◌, ◌≤◌, IfOk};
ghost use Rattle.php_graph.specs.Building.{item_fits};
ghost use Rattle.php_graph.specs.Graph.{IsGraph};
ghost use Rattle.php_graph.specs.Size.{image_length};
ghost use Rattle.seg_words.specs.Blocks.{IsTold};
ghost use Rattle.value_image.specs.Contained.{graph_of};
ghost use Rattle.value_image.specs.Rows.{MayWrite};

use php_graph::{Builder, Bytes, Graph, Item, Key, Wants};
use seg_words::{Segment, VecWords};
use std::alloc::{AllocError, Global};
use std::process::Abort;
use std::test::Fail;
use value_image::{
    Content, bool_content, bytes_are_packed, content_block_words, content_words, get_bytes,
    images_are_runs, images_differ, int_content, null_content, persist, persist_content, put_bytes,
    runs_are_written, runs_stand, text_content, unpersist,
};

// A step in writing a value.
#[derive(Clone, Copy)]
enum Step {
    Null,
    Bool(bool),
    Int(i64),
    Str(&'static [u8]),
    Array,
    Object(&'static [u8]),
    Number(i64),
    Name(&'static [u8]),
    Close,
    Same(u32),
    Back(u32),
}

fn bytes_of(alloc: Global, from: &[u8]) -> Result<Bytes, AllocError> {
    if from.len() > 100 {
        return Err(AllocError);
    }
    Bytes::of(alloc, from)
}

fn item_of(alloc: Global, step: &Step) -> Result<Item, AllocError> {
    Ok(match step {
        Step::Null => Item::Null,
        Step::Bool(truth) => Item::Bool(*truth),
        Step::Int(number) => Item::Int(*number),
        Step::Str(bytes) => Item::Str(bytes_of(alloc, bytes)?),
        Step::Array => Item::OpenArray,
        Step::Object(class) => Item::OpenObject(bytes_of(alloc, class)?),
        Step::Number(number) => Item::Key(Key::Int(*number)),
        Step::Name(name) => Item::Key(Key::Str(bytes_of(alloc, name)?)),
        Step::Close => Item::Close,
        Step::Same(place) => Item::Same(*place),
        Step::Back(place) => Item::Back(*place),
    })
}

fn fits(wants: Wants, item: &Item) -> bool
    ensures { result ≡ item_fits wants item.now }
{
    match wants {
        Wants::Value => !matches!(item, Item::Key(_) | Item::Close),
        Wants::ArrayKey => matches!(item, Item::Key(_) | Item::Close),
        Wants::Name => matches!(item, Item::Key(Key::Str(_)) | Item::Close),
        Wants::Done => false,
    }
}

// The graph that the steps write, if they write one.
fn graph_of(alloc: Global, steps: &[Step]) -> Option<Graph> {
    let mut builder = Builder::new(alloc);
    for step in steps {
        let item = item_of(alloc, step).ok()?;
        if !fits(builder.wants(), &item) {
            return None;
        }
        builder.push(item).ok()?;
    }
    match builder.wants() {
        Wants::Done => Some(builder.seal()),
        _ => None,
    }
}

// Writes the image, and reads the graph from it.
fn round_trip<S: Segment>(
    alloc: Global,
    row: &mut S,
    at: u32,
    g: &Graph,
) -> Result<Graph, AllocError>
    requires apart { MayWrite (S.words row.old) (S.aside row.old).windows at (image_length g.now) }
    requires told { (i : ℕ) → at ≤ i → i < at + image_length g.now
        → IsTold (S.aside row.old).windows i }
    ensures { IfOk result (λ back. back ≡ g.now) }
{
    persist(row, at, g);
    unpersist(alloc, row, at, g.words() as u32)
}

// A row with the graph's image at place `at`, and a word after it.
fn row_of(alloc: Global, at: u32, g: &Graph) -> Result<Vec<u64>, AllocError> {
    let words = g.words();
    if words > 1000 || at > 2 {
        return Err(AllocError);
    }
    let mut row = VecWords::new(alloc, words as u32 + 3)?;
    persist(&mut row, at, g);
    Ok(row.into_words())
}

// The image of the graph that the steps write, at place 2.
fn image(alloc: Global, steps: &[Step]) -> Result<Vec<u64>, AllocError> {
    match graph_of(alloc, steps) {
        Some(g) => row_of(alloc, 2, &g),
        None => Ok(Vec::new(alloc)),
    }
}

#[test]
fn writes_worked_images(rt: HostRuntime) -> Result<(), Fail> {
    let itself: &[Step] = &[Step::Array, Step::Number(0), Step::Back(1), Step::Close];
    let object: &[Step] = &[
        Step::Object(b"A"),
        Step::Name(b"x"),
        Step::Same(1),
        Step::Name(b"y"),
        Step::Back(1),
        Step::Close,
    ];
    let first: &[u64] = &[0, 0, 12, 1, 2, 0, 0];
    let second: &[u64] = &[0, 0, 21, 11, 65, 18, 11, 120, 1, 11, 121, 6, 0, 0];
    for (steps, words) in [(itself, first), (object, second)] {
        let row = image(rt.alloc(), steps)?;
        assert_eq!(rt; row.as_slice(), words);
    }
    Ok(())
}

// How many places and words the graph has that comes back from its image, if the two images are
// the same.
fn back_from(alloc: Global, g: &Graph) -> Result<Option<(u32, u64)>, AllocError> {
    let words = g.words();
    if words > 1000 {
        return Ok(None);
    }
    let mut row = VecWords::new(alloc, words as u32)?;
    let back = round_trip(alloc, &mut row, 0, g)?;
    if row_of(alloc, 0, &back)? != row_of(alloc, 0, g)? {
        return Ok(None);
    }
    Ok(Some((back.places(), back.words())))
}

fn comes_back(alloc: Global, steps: &[Step]) -> Result<Option<(u32, u64)>, AllocError> {
    match graph_of(alloc, steps) {
        Some(g) => back_from(alloc, &g),
        None => Ok(None),
    }
}

#[test]
fn brings_scalars_back(rt: HostRuntime) -> Result<(), Fail> {
    let scalars = [
        (Step::Null, 1),
        (Step::Bool(false), 1),
        (Step::Bool(true), 1),
        (Step::Int(i64::MIN), 2),
        (Step::Int(-1), 2),
        (Step::Int(i64::MAX), 2),
        (Step::Str(b""), 1),
        (Step::Str(b"seven b"), 2),
        (Step::Str(b"eight by"), 2),
        (Step::Str(b"nine byte"), 3),
        (Step::Str(b"\xff\0\0\0\0\0\0\xff\0"), 3),
    ];
    for (step, words) in scalars {
        let back = comes_back(rt.alloc(), &[step])?;
        assert_eq!(rt; back, Some((1, words)));
    }
    Ok(())
}

#[test]
fn brings_containers_back(rt: HostRuntime) -> Result<(), Fail> {
    let empty: &[Step] = &[Step::Array, Step::Close];
    let bare: &[Step] = &[Step::Object(b"Some\\Class"), Step::Close];
    let keys: &[Step] = &[
        Step::Array,
        Step::Name(b""),
        Step::Null,
        Step::Name(b"seven_b"),
        Step::Bool(true),
        Step::Name(b"eight_by"),
        Step::Back(2),
        Step::Name(b"nine_byte"),
        Step::Int(7),
        Step::Number(i64::MIN),
        Step::Str(b"x"),
        Step::Close,
    ];
    let nested: &[Step] = &[
        Step::Array,
        Step::Number(0),
        Step::Array,
        Step::Number(5),
        Step::Object(b"A"),
        Step::Name(b"me"),
        Step::Same(3),
        Step::Name(b""),
        Step::Back(1),
        Step::Close,
        Step::Close,
        Step::Number(1),
        Step::Same(3),
        Step::Number(2),
        Step::Back(4),
        Step::Close,
    ];
    let containers = [(empty, 1, 1), (bare, 1, 4), (keys, 5, 22), (nested, 5, 26)];
    for (steps, places, words) in containers {
        let back = comes_back(rt.alloc(), steps)?;
        assert_eq!(rt; back, Some((places, words)));
    }
    Ok(())
}

// A byte string of this many bytes, no two of them alike.
fn text_of(alloc: Global, len: usize) -> Option<Graph> {
    if len > 100 {
        return None;
    }
    let mut text = [0u8; 100];
    for i in 0..100 {
        text[i] = i as u8;
    }
    let item = Item::Str(Bytes::of(alloc, &text[..len]).ok()?);
    let mut builder = Builder::new(alloc);
    if !fits(builder.wants(), &item) {
        return None;
    }
    builder.push(item).ok()?;
    match builder.wants() {
        Wants::Done => Some(builder.seal()),
        _ => None,
    }
}

fn text_back(alloc: Global, len: usize) -> Result<Option<(u32, u64)>, AllocError> {
    match text_of(alloc, len) {
        Some(g) => back_from(alloc, &g),
        None => Ok(None),
    }
}

// Texts are read eight words at a time, then word by word, then the last bytes.
#[test]
fn brings_texts_of_each_length_back(rt: HostRuntime) -> Result<(), Fail> {
    let texts = [
        (0, 1),
        (1, 2),
        (7, 2),
        (8, 2),
        (9, 3),
        (63, 9),
        (64, 9),
        (65, 10),
        (72, 10),
        (100, 14),
    ];
    for (len, words) in texts {
        let back = text_back(rt.alloc(), len)?;
        assert_eq!(rt; back, Some((1, words)));
    }
    Ok(())
}

// This many bytes z, written after three words, and read again.
fn bytes_back(rt: &impl Abort, alloc: Global, len: usize) -> Result<Vec<u8>, Fail> {
    assert!(rt; len <= 200);
    let mut row = VecWords::new(alloc, 32)?;
    put_bytes(&mut row, 3, &vec![in alloc; b'z'; len]?);
    let words = row.into_words();
    assert_eq!(rt; words.len(), 32);
    let mut out = vec![in alloc; b'-'; len]?;
    get_bytes(&mut VecWords::from_words(words), 3, &mut out);
    Ok(out)
}

#[test]
fn copies_bytes_of_each_length(rt: HostRuntime) -> Result<(), Fail> {
    for len in [0, 1, 8, 63, 64, 65, 127, 128, 137, 200] {
        let back = bytes_back(&rt, rt.alloc(), len)?;
        let bytes = vec![in rt.alloc(); b'z'; len]?;
        assert_eq!(rt; back.as_slice(), bytes.as_slice());
    }
    Ok(())
}

// The image of a byte string without a graph, and how many words it and a block with a key of nine
// bytes take.
#[test]
fn writes_bytes_without_a_graph(rt: HostRuntime) -> Result<(), Fail> {
    let rows: [(&[u8], &[u64], u64, u64); 3] = [
        (b"", &[0, 3, 0, 0], 1, 16),
        (b"ab", &[0, 19, 0x6261, 0], 2, 16),
        (b"abcdefghi", &[0, 75, 0x6867_6665_6463_6261, 0x69], 3, 18),
    ];
    for (bytes, words, image, block) in rows {
        assert!(rt; bytes.len() < 17);
        let content = text_content(bytes);
        let mut row = VecWords::new(rt.alloc(), 4)?;
        persist_content(&mut row, 1, &content);
        assert_eq!(rt; row.into_words().as_slice(), words);
        assert_eq!(rt; content_words(&content), image);
        assert_eq!(rt; content_block_words(9, &content), block);
    }
    Ok(())
}

// A scalar of which no graph is made has this image, written with a word before it and one behind
// it, and its block with a key of nine bytes takes 16 words.
fn has_image(
    rt: &impl Abort,
    alloc: Global,
    content: &Content<'_>,
    words: &[u64],
) -> Result<(), Fail>
    requires { IsGraph (graph_of content.now) }
{
    let image = content_words(content);
    assert!(rt; image < 3);
    let mut row = VecWords::new(alloc, image as u32 + 2)?;
    persist_content(&mut row, 1, content);
    assert_eq!(rt; row.into_words().as_slice(), words);
    assert_eq!(rt; content_block_words(9, content), 16);
    Ok(())
}

#[test]
fn writes_scalars_without_a_graph(rt: HostRuntime) -> Result<(), Fail> {
    let alloc = rt.alloc();
    has_image(&rt, alloc, &null_content(), &[0, 0, 0])?;
    has_image(&rt, alloc, &bool_content(false), &[0, 1, 0])?;
    has_image(&rt, alloc, &bool_content(true), &[0, 9, 0])?;
    has_image(&rt, alloc, &int_content(0), &[0, 2, 0, 0])?;
    has_image(
        &rt,
        alloc,
        &int_content(-1),
        &[0, 2, 18_446_744_073_709_551_615, 0],
    )?;
    has_image(&rt, alloc, &int_content(1_234_567), &[0, 2, 1_234_567, 0])
}

#[test]
fn brings_bytes_back(rt: HostRuntime) -> Result<(), Fail> {
    let mut row = VecWords::new(rt.alloc(), 4)?;
    put_bytes(&mut row, 1, b"abcdefghi");
    let mut out = [b'-'; 9];
    get_bytes(&mut row, 1, &mut out);
    assert_eq!(rt; out.as_slice(), b"abcdefghi".as_slice());
    let words = row.into_words();
    let packed: &[u64] = &[0, 0x6867_6665_6463_6261, 0x69, 0];
    assert_eq!(rt; words.as_slice(), packed);
    Ok(())
}

#[test]
fn images_state_their_laws() {
    bytes_are_packed();
    images_are_runs();
    images_differ();
    runs_are_written();
    runs_stand();
}
