//! Byte strings: their blocks, their copies and their size.

use byte_box::{ByteBox, strings_cross};
use std::alloc::Global;
use std::cmp::Ordering;
use std::fs;
use std::mem::size_of;
use std::process::Abort;
use std::test::Fail;

#[test]
fn byte_box_is_small(rt: HostRuntime) {
    strings_cross();
    assert_eq!(rt; size_of::<ByteBox>(), 16);
}

#[test]
fn byte_box_copies(rt: HostRuntime) -> Result<(), Fail> {
    for text in [
        &b""[..],
        b"a",
        b"\x00\xff\x80",
        b"fourteen bytes",
        b"a fifteenth one",
        b"of sixteen bytes",
        b"of seventeen byte",
        b"a text of some thirty bytes, and one",
    ] {
        let copy = ByteBox::of(rt.alloc(), text)?;
        assert_eq!(rt; copy.as_slice(), text);
        assert_eq!(rt; copy.len(), text.len());
        assert_eq!(rt; copy.is_empty(), text.is_empty());
    }
    Ok(())
}

// A block that fits, one with room to spare, room alone, none, and one that grew, of few bytes and
// of many; and those whose further room just fits into 16 bits, or does not.
#[test]
fn takes_blocks(rt: HostRuntime) -> Result<(), Fail> {
    let rows = [
        (3, &b"abc"[..]),
        (64, b"abc"),
        (5, b""),
        (0, b""),
        (2, b"some bytes"),
        (14, b"fourteen bytes"),
        (15, b"fourteen bytes"),
        (15, b"a fifteenth one"),
        (16, b"a fifteenth one"),
        (0, b"of sixteen bytes"),
        (64, b"of seventeen byte"),
        (65_550, b"a fifteenth one"),
        (65_551, b"a fifteenth one"),
    ];
    for (room, text) in rows {
        let mut bytes = Vec::with_capacity(rt.alloc(), room)?;
        bytes.extend_from_slice(text)?;
        assert_eq!(rt; ByteBox::from_vec(bytes).as_slice(), text);
    }
    Ok(())
}

// How many pages of addresses this process has.
fn pages(rt: &HostRuntime) -> Result<u64, Fail> {
    let told = fs::read_to_string(rt, "/proc/self/statm")?;
    let first = told.as_str().split(' ').next().unwrap_or("");
    Ok(first.parse::<u64>()?)
}

// A megabyte.
const LARGE: usize = 1 << 20;

// As many pages as five hundred such blocks have, and some more.
const HALF: u64 = 131_072;

// A string of these bytes: a copy, or in a block with room for a megabyte.
fn string_of(rt: &impl Abort, alloc: Global, text: &[u8], is_copy: bool) -> Result<ByteBox, Fail> {
    assert!(rt; text.len() <= LARGE);
    if is_copy {
        return Ok(ByteBox::of(alloc, text)?);
    }
    let mut bytes = Vec::with_capacity(alloc, LARGE)?;
    bytes.extend_from_slice(text)?;
    Ok(ByteBox::from_vec(bytes))
}

// Blocks are freed with their strings: after a thousand large ones, one after the other, the
// process has not grown by half of them. They are of few bytes, of many with some room after them,
// and of many with none.
#[test]
fn gives_blocks_back(rt: HostRuntime) -> Result<(), Fail> {
    let many = Vec::from_elem(rt.alloc(), 7u8, 1_000_000)?;
    let all = Vec::from_elem(rt.alloc(), 7u8, LARGE)?;
    let rows = [
        (&b"a"[..], false),
        (many.as_slice(), false),
        (all.as_slice(), false),
        (all.as_slice(), true),
    ];
    for (text, is_copy) in rows {
        let most = pages(&rt)?.saturating_add(HALF);
        for _ in 0..1_000 {
            let string = string_of(&rt, rt.alloc(), text, is_copy)?;
            assert_eq!(rt; string.len(), text.len());
        }
        assert!(rt; pages(&rt)? < most, "{} bytes", text.len());
    }
    Ok(())
}

#[test]
fn compares(rt: HostRuntime) -> Result<(), Fail> {
    let rows = [
        (&b""[..], &b""[..], Ordering::Equal),
        (b"", b"a", Ordering::Less),
        (b"ab", b"ab", Ordering::Equal),
        (b"ab", b"abc", Ordering::Less),
        (b"b", b"abc", Ordering::Greater),
        (b"\xff", b"\x00", Ordering::Greater),
        (b"fourteen bytes", b"fourteen bytes.", Ordering::Less),
        (b"a fifteenth one", b"a fifteenth one", Ordering::Equal),
        (b"zwei", b"a text of some thirty bytes", Ordering::Greater),
    ];
    for (left, right, order) in rows {
        let (left, right) = (
            ByteBox::of(rt.alloc(), left)?,
            ByteBox::of(rt.alloc(), right)?,
        );
        assert_eq!(rt; left.cmp(&right), order);
        assert_eq!(rt; left.partial_cmp(&right), Some(order));
        assert_eq!(rt; left == right, order == Ordering::Equal);
    }
    Ok(())
}

#[test]
fn shows_its_bytes(rt: HostRuntime) -> Result<(), Fail> {
    let shown = format!(in rt.alloc(); "{:?}", ByteBox::of(rt.alloc(), b"a\xff")?)?;
    assert_eq!(rt; shown.as_str(), "[97, 255]");
    Ok(())
}
