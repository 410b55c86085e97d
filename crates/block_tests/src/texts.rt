//! Texts of values, read and written.

use notation::{
    ByteOut, Cursor, ReadFault, Reason, read_integer, read_string, read_value, write_key,
    write_value,
};
use php_graph::{Graph, Kind};
use std::alloc::Global;
use std::process::Abort;
use std::test::Fail;

fn read(alloc: Global, text: &[u8]) -> Result<Graph, ReadFault> {
    let mut from = Cursor::new(text);
    read_value(alloc, &mut from)
}

// Reads a text that more bytes follow, and writes what was read.
fn round_trip(rt: &impl Abort, alloc: Global, text: &[u8]) -> Result<(), Fail> {
    let mut input = ByteOut::new(alloc);
    input.push(text)?;
    input.push(b"; and more")?;
    let mut from = Cursor::new(input.as_slice());
    let value = read_value(alloc, &mut from)?;
    assert_eq!(rt; from.place(), text.len() as u64);
    assert_eq!(rt; from.peek(), Some(b';'));
    let mut out = ByteOut::new(alloc);
    out.push(b"before ")?;
    write_value(&value, 0, &mut out)?;
    assert_eq!(rt; out.as_slice().len(), 7 + text.len());
    assert_eq!(rt; &out.as_slice()[7..], text);
    Ok(())
}

#[test]
fn good_texts(rt: HostRuntime) -> Result<(), Fail> {
    let texts: [&[u8]; 16] = [
        b"N;",
        b"b:0;",
        b"b:1;",
        b"i:0;",
        b"i:-7;",
        b"i:9223372036854775807;",
        b"i:-9223372036854775808;",
        b"s:0:\"\";",
        b"s:4:\"\x00\xff\";\";",
        b"a:0:{}",
        b"a:1:{i:0;R:1;}",
        b"O:1:\"A\":2:{s:1:\"x\";r:1;s:1:\"y\";R:1;}",
        b"a:4:{i:0;i:1;i:1;R:2;i:2;O:1:\"A\":0:{}i:3;r:3;}",
        b"a:2:{s:2:\"05\";a:1:{i:-5;N;}s:0:\"\";b:1;}",
        b"O:11:\"App\\Session\":3:{s:4:\"user\";a:2:{s:2:\"id\";i:42;s:4:\"name\";s:3:\"Ann\";}s:8:\"\x00*\x00token\";s:6:\"x1y2z3\";s:17:\"\x00App\\Session\x00cart\";a:1:{i:0;a:2:{s:3:\"sku\";s:4:\"A-17\";s:3:\"qty\";i:2;}}}",
        b"a:2:{i:0;a:1:{i:0;i:1;}i:1;R:3;}",
    ];
    for text in &texts {
        round_trip(&rt, rt.alloc(), text)?;
    }
    Ok(())
}

#[derive(Drop)]
struct Row {
    text: &'static [u8],
    place: u64,
    reason: Reason,
}

fn stops_at(text: &'static [u8], place: u64, reason: Reason) -> Row {
    Row {
        text,
        place,
        reason,
    }
}

fn refused(rt: &impl Abort, alloc: Global, row: &Row) {
    let mut from = Cursor::new(row.text);
    match read_value(alloc, &mut from) {
        Err(ReadFault::Bad { place, reason }) => {
            assert_eq!(rt; place, row.place);
            assert_eq!(rt; reason, row.reason);
        }
        _ => assert!(rt; false),
    }
    assert_eq!(rt; from.place(), 0);
}

#[test]
fn first_faults(rt: HostRuntime) {
    let rows = [
        stops_at(b"", 0, Reason::End),
        stops_at(b"i:", 2, Reason::End),
        stops_at(b"i:5", 3, Reason::End),
        stops_at(b"d:1.5;", 0, Reason::Tag),
        stops_at(b"i:05;", 2, Reason::Number),
        stops_at(b"i:-0;", 2, Reason::Number),
        stops_at(b"i:+5;", 2, Reason::Number),
        stops_at(b"i:9223372036854775808;", 2, Reason::Number),
        stops_at(b"b:2;", 2, Reason::Number),
        stops_at(b"s:3:\"ab\";", 2, Reason::Length),
        stops_at(b"s:4294967295:\"abc\";", 2, Reason::Length),
        stops_at(b"s:4294967296:\"\";", 2, Reason::Number),
        stops_at(b"i;5;", 1, Reason::Mark),
        stops_at(b"a:1:{i:0;r:1;}", 11, Reason::Target),
        stops_at(b"R:1;", 2, Reason::Target),
        stops_at(b"a:2:{i:0;N;}", 11, Reason::Tag),
        stops_at(b"a:1:{i:0;N;i:1;N;}", 11, Reason::Mark),
        stops_at(b"a:2:{i:0;N;i:0;N;}", 11, Reason::Repeat),
        stops_at(b"a:1:{s:1:\"5\";N;}", 5, Reason::Integer),
        stops_at(b"O:1:\"-\":0:{}", 0, Reason::Class),
        stops_at(b"O:0:\"\":0:{}", 0, Reason::Class),
        stops_at(b"O:1:\"A\":1:{i:0;N;}", 11, Reason::Tag),
    ];
    for row in &rows {
        refused(&rt, rt.alloc(), row);
    }
}

#[test]
fn based(rt: HostRuntime) -> Result<(), Fail> {
    let value = read(rt.alloc(), b"O:1:\"A\":2:{s:1:\"x\";r:1;s:1:\"y\";R:1;}")?;
    let mut out = ByteOut::new(rt.alloc());
    write_value(&value, 2, &mut out)?;
    assert_eq!(rt;
        out.as_slice(),
        b"O:1:\"A\":2:{s:1:\"x\";r:3;s:1:\"y\";R:3;}".as_slice()
    );
    Ok(())
}

#[test]
fn keys(rt: HostRuntime) -> Result<(), Fail> {
    let mut out = ByteOut::new(rt.alloc());
    write_key(b"5", &mut out)?;
    write_key(b"05", &mut out)?;
    write_key(b"-0", &mut out)?;
    assert_eq!(rt; out.as_slice(), b"i:5;s:2:\"05\";s:2:\"-0\";".as_slice());
    Ok(())
}

#[test]
fn reads_what_stands_there(rt: HostRuntime) -> Result<(), Fail> {
    let mut from = Cursor::new(b" i:-5;N;");
    assert_eq!(rt; from.peek(), Some(b' '));
    from.skip();
    let number = read_value(rt.alloc(), &mut from)?;
    assert!(rt; number.places() == 1);
    assert!(rt; matches!(number.kind(1), Kind::Int(-5)));
    let none = read_value(rt.alloc(), &mut from)?;
    assert!(rt; none.places() == 1);
    assert!(rt; matches!(none.kind(1), Kind::Null));
    assert_eq!(rt; from.peek(), None);
    Ok(())
}

#[test]
fn cuts(rt: HostRuntime) -> Result<(), Fail> {
    let mut out = ByteOut::new(rt.alloc());
    out.push(b"abc")?;
    out.cut(1);
    assert_eq!(rt; out.as_slice(), b"a".as_slice());
    Ok(())
}

#[test]
fn reads_plain_values(rt: HostRuntime) {
    match read_string(b"s:2:\"ab\";i:7;") {
        Ok(Some((text, rest))) => {
            assert_eq!(rt; text, b"ab".as_slice());
            assert_eq!(rt; rest, b"i:7;".as_slice());
        }
        _ => assert!(rt; false),
    }
    match read_integer(b"i:-7;N;") {
        Ok(Some((number, rest))) => {
            assert_eq!(rt; number, -7);
            assert_eq!(rt; rest, b"N;".as_slice());
        }
        _ => assert!(rt; false),
    }
    assert!(rt; matches!(read_string(b"i:7;"), Ok(None)));
    assert!(rt; matches!(read_integer(b"s:0:\"\";"), Ok(None)));
    match read_string(b"s:2:\"ab") {
        Err(fault) => {
            assert_eq!(rt; fault.reason, Reason::Length);
            assert_eq!(rt; fault.left, 5);
        }
        _ => assert!(rt; false),
    }
}
