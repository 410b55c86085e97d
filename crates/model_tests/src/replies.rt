//! Walks and totals, as PHP's `serialize` would print them.

use apcu_model::{Chunk, Fields, ItemRow, Items, Reply};
use notation::{ByteOut, Cursor, read_value};
use php_graph::{Bytes, Graph};
use reply_text::{write_totals, write_walk};
use std::alloc::Global;
use std::test::Fail;

// A row: its key, its value, how often it was fetched, and the bytes of its block.
type Row = (&'static [u8], &'static [u8], u64, u64);

fn value_of(alloc: Global, text: &[u8]) -> Result<Option<Graph>, Fail> {
    if text.is_empty() {
        return Ok(None);
    }
    let mut from = Cursor::new(text);
    Ok(Some(read_value(alloc, &mut from)?))
}

fn item_of(alloc: Global, row: &Row) -> Result<ItemRow, Fail> {
    if row.0.len() > 64 {
        return Err(Fail::new("a long key"));
    }
    Ok(ItemRow {
        key: Bytes::of(alloc, row.0)?,
        value: value_of(alloc, row.1)?,
        hits: row.2,
        mtime: 3,
        ctime: 1,
        dtime: 0,
        atime: 2,
        size: row.3,
        ttl: 5,
    })
}

// The steps of a walk that return these rows.
fn steps_of(alloc: Global, steps: &[&[Row]]) -> Result<Vec<Reply>, Fail> {
    let mut replies = Vec::new(alloc);
    for rows in steps {
        let mut items = Items::new(alloc);
        for row in *rows {
            if items.len() > 64 {
                return Err(Fail::new("many rows"));
            }
            items.push(item_of(alloc, row)?)?;
        }
        replies.push(Reply::Chunk(Chunk { next: 0, items }))?;
    }
    Ok(replies)
}

#[test]
fn walks(rt: HostRuntime) -> Result<(), Fail> {
    let cases: [(u16, &[&[Row]], &[u8]); 4] = [
        (0x1ff, &[], b"a:0:{}"),
        (
            0x001,
            &[
                &[(b"a", b"", 0, 128), (b"A", b"", 0, 128)],
                &[(b"b", b"", 0, 128)],
                &[],
            ],
            b"a:3:{i:0;a:1:{s:3:\"key\";s:1:\"a\";}i:1;a:1:{s:3:\"key\";s:1:\"A\";}i:2;a:1:{s:3:\"key\";s:1:\"b\";}}",
        ),
        (
            0x081,
            &[&[(b"session:42", b"", 0, 464)]],
            b"a:1:{i:0;a:2:{s:3:\"key\";s:10:\"session:42\";s:8:\"mem_size\";i:464;}}",
        ),
        (
            0x1ff,
            &[
                &[(b"x", b"a:2:{i:0;i:1;i:1;R:2;}", 1 << 63, 8)],
                &[(b"7", b"O:1:\"C\":1:{s:2:\"me\";r:1;}", 7, 16)],
            ],
            b"a:2:{i:0;a:9:{s:3:\"key\";s:1:\"x\";s:5:\"value\";a:2:{i:0;i:1;i:1;R:5;}s:8:\"num_hits\";i:9223372036854775807;s:5:\"mtime\";i:3;s:13:\"creation_time\";i:1;s:13:\"deletion_time\";i:0;s:11:\"access_time\";i:2;s:8:\"mem_size\";i:8;s:3:\"ttl\";i:5;}i:1;a:9:{s:3:\"key\";s:1:\"7\";s:5:\"value\";O:1:\"C\":1:{s:2:\"me\";r:15;}s:8:\"num_hits\";i:7;s:5:\"mtime\";i:3;s:13:\"creation_time\";i:1;s:13:\"deletion_time\";i:0;s:11:\"access_time\";i:2;s:8:\"mem_size\";i:16;s:3:\"ttl\";i:5;}}",
        ),
    ];
    for (fields, steps, wanted) in &cases {
        let replies = steps_of(rt.alloc(), steps)?;
        let mut out = ByteOut::new(rt.alloc());
        write_walk(&mut out, Fields(*fields), replies.as_slice())?;
        assert_eq!(rt; out.as_slice(), *wanted);
    }
    Ok(())
}

#[test]
fn totals(rt: HostRuntime) -> Result<(), Fail> {
    let mut out = ByteOut::new(rt.alloc());
    write_totals(&mut out, 3, 0, 384)?;
    write_totals(&mut out, 0, 1 << 63, (1 << 63) - 1)?;
    let wanted =
        b"a:3:{s:5:\"count\";i:3;s:4:\"hits\";i:0;s:4:\"size\";i:384;}a:3:{s:5:\"count\";i:0;s:4:\"hits\";i:9223372036854775807;s:4:\"size\";i:9223372036854775807;}";
    assert_eq!(rt; out.as_slice(), wanted.as_slice());
    Ok(())
}
