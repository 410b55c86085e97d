//! The graphs that the information calls return, made from numbers and rows.

ghost use Rattle.std.specs.Prelude.{◌≡◌, ℕ, ◌+◌, ◌++◌, ◌≤◌, ◌^◌, length, map, IfOk, OnOk};
ghost use Rattle.std.specs.List.{AllByRecursion};
ghost use Rattle.php_graph.specs.ByteStrings.{AreBytes};
ghost use Rattle.apcu_model.specs.Infos.{info_array, info_counts, info_gap, info_gaps, info_list};
ghost use Rattle.apcu_model.specs.Infos.{gaps_in, info_members, info_numbered, info_segment};
ghost use Rattle.apcu_model.specs.Infos.{info_values};
ghost use Rattle.apcu_model.specs.Conf.{IsUsable};
ghost use Rattle.php_graph.specs.Size.{cells_of};
ghost use Rattle.php_graph.specs.declared.kind.Kind.TheVariants as kinds;
ghost use Rattle.std.specs.List.{range_with_len};
ghost use Rattle.std.specs.Prelude.{◌<◌};
ghost use Rattle.apcu_model.specs.InfoGraphs.{IsTellable, row_keys, single_members};
ghost use Rattle.apcu_model.specs.Infos.{info_of_key, info_row, info_rows, info_words, word_bytes};

use crate::telling::{Telling, array_by, array_of, item, keys_of, list_of};
use apcu_model::{Conf, Counts, ListedRow, RowInfo};
use php_graph::{Graph, Key, Kind, MOST_VALUES, Members};
use seg_words::Extent;
use std::alloc::{AllocError, Global};

// The bytes of this many words.
fn bytes_in(words: u32) -> u64
    ensures { result ≡ word_bytes words }
{
    8 * u64::from(words)
}

/// The graph of `apcu_key_info` for a row.
pub fn tell_key(alloc: Global, row: RowInfo) -> Result<Graph, AllocError>
    ensures { IfOk result (λ g. g ≡ info_of_key row 1) }
{
    let (first, cells) = array_of(
        alloc,
        &[
            (b"hits", 1),
            (b"access_time", 1),
            (b"mtime", 1),
            (b"creation_time", 1),
            (b"deletion_time", 1),
            (b"ttl", 1),
        ],
        2,
    )?;
    let mut telling = Telling::new(alloc, first, cells);
    telling.push_numbers(&[
        row.hits,
        row.atime,
        row.mtime,
        row.ctime,
        row.dtime,
        u64::from(row.ttl),
    ])?;
    Ok(telling.finish())
}

// The places of a row in a list, as an array under copies of these keys, whose place has `cells`
// words in an image.
fn push_row(
    telling: &mut Telling,
    alloc: Global,
    keys: &[Key],
    cells: u64,
    row: ListedRow,
) -> Result<(), AllocError>
    requires keys { keys.now ≡ row_keys }
    requires cells { (place : ℕ) → cells ≡ cells_of (kinds.Array (single_members place row_keys)) }
    requires small { cells ≤ 2 ^ 34 }
    ensures info { OnOk result
        (telling.new ≡ telling.old ++ info_row row (length telling.old + 1)) }
    ensures key { AreBytes row.key }
{
    let place = telling.len() + 1;
    let info = row.info;
    let _bytes = row.key.as_slice();
    let kind = array_by(alloc, keys, place + 1)?;
    telling.push(kind, cells)?;
    telling.push_string(row.key)?;
    telling.push_numbers(&[
        u64::from(info.ttl),
        info.hits,
        info.mtime,
        info.ctime,
        info.dtime,
        info.atime,
        bytes_in(info.size),
    ])?;
    Ok(())
}

// The keys of each row's array.
fn keys_of_row(alloc: Global) -> Result<(Vec<Key>, u64), AllocError>
    ensures keys { IfOk result (λ r. r.0.items ≡ row_keys) }
    ensures cells { (place : ℕ)
        → IfOk result (λ r. r.1 ≡ cells_of (kinds.Array (single_members place row_keys))) }
    ensures small { IfOk result (λ r. r.1 ≤ 2 ^ 34) }
{
    keys_of(
        alloc,
        &[
            b"info",
            b"ttl",
            b"num_hits",
            b"mtime",
            b"creation_time",
            b"deletion_time",
            b"access_time",
            b"mem_size",
        ],
    )
}

// The number of places of a row in a list.
const ROW_PLACES: u32 = 9;

// A list of rows.
fn push_rows(telling: &mut Telling, alloc: Global, rows: Vec<ListedRow>) -> Result<(), AllocError>
    ensures info { OnOk result (telling.new
        ≡ telling.old ++ info_list (map info_row rows.items) (length telling.old + 1)) }
    ensures keys { OnOk result (AllByRecursion (λ (row : ListedRow). AreBytes row.key) rows.items) }
    ensures few { OnOk result (length rows.items ≤ 2 ^ 32) }
{
    if rows.len() > MOST_VALUES as usize {
        return Err(AllocError);
    }
    let place = telling.len() + 1;
    let (kind, cells) = list_of(alloc, rows.len() as u32, ROW_PLACES, place + 1)?;
    telling.push(kind, cells)?;
    telling.reserve(ROW_PLACES as usize * rows.len())?;
    let (keys, cells) = keys_of_row(alloc)?;
    for row in rows {
        push_row(telling, alloc, &keys, cells, row)?;
    }
    Ok(())
}

// The number of places of a gap in a list.
const GAP_PLACES: u32 = 3;

// The places of a gap in a list.
fn push_gap(telling: &mut Telling, alloc: Global, gap: Extent) -> Result<(), AllocError>
    ensures { OnOk result (telling.new ≡ telling.old ++ info_gap gap (length telling.old + 1)) }
{
    let place = telling.len() + 1;
    let (kind, cells) = array_of(alloc, &[(b"size", 1), (b"offset", 1)], place + 1)?;
    telling.push(kind, cells)?;
    telling.push_numbers(&[bytes_in(gap.size), bytes_in(gap.place)])?;
    Ok(())
}

// A list of gaps.
fn push_gaps(telling: &mut Telling, alloc: Global, gaps: &[Extent]) -> Result<(), AllocError>
    ensures info { OnOk result (telling.new
        ≡ telling.old ++ info_list (map info_gap gaps.now) (length telling.old + 1)) }
    ensures few { OnOk result (length gaps.now ≤ 2 ^ 32) }
{
    if gaps.len() > MOST_VALUES as usize {
        return Err(AllocError);
    }
    let place = telling.len() + 1;
    let (kind, cells) = list_of(alloc, gaps.len() as u32, GAP_PLACES, place + 1)?;
    telling.push(kind, cells)?;
    telling.reserve(GAP_PLACES as usize * gaps.len())?;
    for gap in gaps {
        push_gap(telling, alloc, *gap)?;
    }
    Ok(())
}

/// The graph of `apcu_cache_info` for a cache without its lists, if the blocks of its rows have
/// this many words.
pub fn tell_counts(
    alloc: Global,
    conf: Conf,
    counts: Counts,
    words: u64,
) -> Result<Graph, AllocError>
    ensures { IfOk result (λ g. g ≡ info_array (info_counts conf counts words) 1) }
{
    let (first, cells) = array_of(
        alloc,
        &[
            (b"num_slots", 1),
            (b"ttl", 1),
            (b"num_hits", 1),
            (b"num_misses", 1),
            (b"num_inserts", 1),
            (b"num_entries", 1),
            (b"expunges", 1),
            (b"mem_size", 1),
        ],
        2,
    )?;
    let mut telling = Telling::new(alloc, first, cells);
    push_counts(&mut telling, conf, counts, words)?;
    Ok(telling.finish())
}

// The numbers that are in each reply of `apcu_cache_info`.
fn push_counts(
    telling: &mut Telling,
    conf: Conf,
    counts: Counts,
    words: u64,
) -> Result<(), AllocError>
    ensures { OnOk result
        (telling.new ≡ telling.old ++ info_values 2 (info_counts conf counts words)) }
{
    telling.push_numbers(&[
        u64::from(conf.slots),
        u64::from(conf.ttl),
        counts.hits,
        counts.misses,
        counts.inserts,
        counts.entries,
        counts.expunges,
        words.saturating_mul(8),
    ])
}

/// The graph of `apcu_cache_info` for a cache with its lists: these rows, and these removed rows.
pub fn tell_cache(
    alloc: Global,
    conf: Conf,
    counts: Counts,
    words: u64,
    rows: Vec<ListedRow>,
    removed: Vec<ListedRow>,
) -> Result<Graph, AllocError>
    ensures { IfOk result (λ g. g ≡ info_array
        (info_counts conf counts words ++ info_rows rows.items removed.items) 1) }
{
    let telling = cache_places(alloc, conf, counts, words, rows, removed)?;
    Ok(telling.finish())
}

// The places of a cache with its lists.
fn cache_places(
    alloc: Global,
    conf: Conf,
    counts: Counts,
    words: u64,
    rows: Vec<ListedRow>,
    removed: Vec<ListedRow>,
) -> Result<Telling, AllocError>
    ensures info { IfOk result (λ t. t ≡ info_array
        (info_counts conf counts words ++ info_rows rows.items removed.items) 1) }
    ensures tellable { IfOk result (λ t. IsTellable t) }
{
    if rows.len() > MOST_VALUES as usize {
        return Err(AllocError);
    }
    let (first, cells) = array_of(
        alloc,
        &[
            (b"num_slots", 1),
            (b"ttl", 1),
            (b"num_hits", 1),
            (b"num_misses", 1),
            (b"num_inserts", 1),
            (b"num_entries", 1),
            (b"expunges", 1),
            (b"mem_size", 1),
            (b"cache_list", 1 + ROW_PLACES * rows.len() as u32),
            (b"deleted_list", 1),
        ],
        2,
    )?;
    let mut telling = Telling::new(alloc, first, cells);
    push_counts(&mut telling, conf, counts, words)?;
    push_rows(&mut telling, alloc, rows)?;
    push_rows(&mut telling, alloc, removed)?;
    Ok(telling)
}

// The gaps of one segment, by their places in it.
fn gaps_in(alloc: Global, piece: u32, gaps: &[Extent], k: u32) -> Result<Vec<Extent>, AllocError>
    requires { 0 < piece }
    ensures gaps { IfOk result (λ list. list.items ≡ gaps_in piece gaps.now k) }
{
    let mut list = Vec::new(alloc);
    for gap in gaps {
        if gap.place / piece == k {
            list.push(Extent {
                place: gap.place % piece,
                size: gap.size,
            })?;
        }
    }
    Ok(list)
}

// The list of the segments' lists of gaps, which begin at `place`; and how many words its own place
// has in an image.
fn segment_lists(
    alloc: Global,
    piece: u32,
    gaps: &[Extent],
    segments: u32,
    place: u32,
) -> Result<(Kind, u64), AllocError>
    requires some { 0 < piece }
    requires few { (length gaps.now ≤ 2 ^ 24) × (segments ≤ 64) × (place ≤ 2 ^ 25) }
    ensures kind { IfOk result (λ r. r.0 ≡ kinds.Array (info_members place (info_numbered 0 (map
        (info_segment piece gaps.now) (range_with_len 0 segments))))) }
    ensures cells { IfOk result (λ r. r.1 ≡ cells_of r.0) }
    ensures small { IfOk result (λ r. r.1 ≤ 2 ^ 34) }
{
    let mut items = Vec::with_capacity(alloc, segments as usize)?;
    let mut next = place;
    for k in 0..segments {
        let list = gaps_in(alloc, piece, gaps, k)?;
        items.push(item(k, next))?;
        next += 1 + GAP_PLACES * list.len() as u32;
    }
    let kind = Kind::Array(Members::from_vec(items));
    Ok((kind, 1 + 3 * u64::from(segments)))
}

// A list of the gaps of each segment.
fn push_segments(
    telling: &mut Telling,
    alloc: Global,
    piece: u32,
    gaps: &[Extent],
    segments: u32,
) -> Result<(), AllocError>
    requires some { 0 < piece }
    requires few { segments ≤ 64 }
    ensures info { OnOk result (telling.new ≡ telling.old ++ info_list (map
        (info_segment piece gaps.now) (range_with_len 0 segments)) (length telling.old + 1)) }
    ensures few { OnOk result (length gaps.now ≤ 2 ^ 32) }
{
    if gaps.len() > MOST_VALUES as usize {
        return Err(AllocError);
    }
    let place = telling.len() + 1;
    let (kind, cells) = segment_lists(alloc, piece, gaps, segments, place + 1)?;
    telling.push(kind, cells)?;
    for k in 0..segments {
        let list = gaps_in(alloc, piece, gaps, k)?;
        push_gaps(telling, alloc, &list)?;
    }
    Ok(())
}

/// The graph of `apcu_sma_info` for the segments without their gaps: their number, the words of
/// each, and how many of all words are free.
pub fn tell_words(alloc: Global, conf: Conf, free: u32) -> Result<Graph, AllocError>
    ensures { IfOk result (λ g. g ≡ info_array (info_words conf free) 1) }
{
    let (first, cells) = array_of(
        alloc,
        &[(b"num_seg", 1), (b"seg_size", 1), (b"avail_mem", 1)],
        2,
    )?;
    let mut telling = Telling::new(alloc, first, cells);
    telling.push_numbers(&[
        u64::from(conf.segments),
        bytes_in(conf.piece()),
        bytes_in(free),
    ])?;
    Ok(telling.finish())
}

/// The graph of `apcu_sma_info` for the segments with their gaps.
pub fn tell_gaps(alloc: Global, conf: Conf, free: u32, gaps: &[Extent]) -> Result<Graph, AllocError>
    requires { IsUsable conf }
    ensures { IfOk result
        (λ g. g ≡ info_array (info_words conf free ++ info_gaps conf gaps.now) 1) }
{
    let telling = segment_places(alloc, conf, free, gaps)?;
    Ok(telling.finish())
}

// The places of the segments with their gaps.
fn segment_places(
    alloc: Global,
    conf: Conf,
    free: u32,
    gaps: &[Extent],
) -> Result<Telling, AllocError>
    requires { IsUsable conf }
    ensures info { IfOk result
        (λ t. t ≡ info_array (info_words conf free ++ info_gaps conf gaps.now) 1) }
    ensures tellable { IfOk result (λ t. IsTellable t) }
{
    let (first, cells) = array_of(
        alloc,
        &[
            (b"num_seg", 1),
            (b"seg_size", 1),
            (b"avail_mem", 1),
            (b"block_lists", 1),
        ],
        2,
    )?;
    let piece = conf.piece();
    let mut telling = Telling::new(alloc, first, cells);
    telling.push_numbers(&[u64::from(conf.segments), bytes_in(piece), bytes_in(free)])?;
    push_segments(&mut telling, alloc, piece, gaps, conf.segments)?;
    Ok(telling)
}
