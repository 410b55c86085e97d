//! A table of what calls print for their replies.

use apcu_model::{Keys, Reply};
use notation::{ByteOut, Cursor, read_value};
use php_graph::{Bytes, Graph};
use reply_text::{Replies, render};
use script_read::Call;
use std::alloc::Global;
use std::test::Fail;

// The replies of a case: whether something was done, or the value that was found.
enum Told {
    Done(bool),
    Found(&'static [u8]),
    Absent,
}

fn key_of(alloc: Global, text: &[u8]) -> Result<Bytes, Fail> {
    if text.len() > 64 {
        return Err(Fail::new("a long key"));
    }
    Ok(Bytes::of(alloc, text)?)
}

fn keys_of(alloc: Global, texts: &[&[u8]]) -> Result<Keys, Fail> {
    let mut keys = Keys::new(alloc);
    for text in texts {
        if keys.len() > 64 {
            return Err(Fail::new("many keys"));
        }
        keys.push(key_of(alloc, text)?)?;
    }
    Ok(keys)
}

fn value_of(alloc: Global, text: &[u8]) -> Result<Graph, Fail> {
    let mut from = Cursor::new(text);
    Ok(read_value(alloc, &mut from)?)
}

fn replies_of(alloc: Global, told: &[Told]) -> Result<Replies, Fail> {
    let mut replies = Replies::new(alloc);
    for one in told {
        let reply = match one {
            Told::Done(done) => Reply::Flag(*done),
            Told::Found(text) => Reply::Found(value_of(alloc, text)?),
            Told::Absent => Reply::Absent,
        };
        replies.push(reply)?;
    }
    Ok(replies)
}

fn calls(alloc: Global) -> Result<Vec<(Call, &'static [Told], &'static [u8])>, Fail> {
    let mut cases: Vec<(Call, &'static [Told], &'static [u8])> = Vec::new(alloc);
    cases.push((Call::Enabled, &[], b"b:1;"))?;
    let one = Call::FetchOne(key_of(alloc, b"a")?);
    cases.push((one, &[Told::Found(b"i:5;")], b"i:5;b:1;"))?;
    let one = Call::FetchOne(key_of(alloc, b"a")?);
    cases.push((one, &[Told::Absent], b"b:0;b:0;"))?;
    let many = Call::FetchMany(keys_of(alloc, &[b"a", b"b", b"a"])?);
    let told: &[Told] = &[Told::Found(b"i:1;"), Told::Absent, Told::Found(b"i:2;")];
    cases.push((many, told, b"a:1:{s:1:\"a\";i:2;}b:1;"))?;
    let many = Call::ExistsMany(keys_of(alloc, &[b"a", b"7"])?);
    cases.push((
        many,
        &[Told::Done(false), Told::Done(true)],
        b"a:1:{i:7;b:1;}",
    ))?;
    let many = Call::DeleteMany(keys_of(alloc, &[b"a", b"b"])?);
    cases.push((
        many,
        &[Told::Done(true), Told::Done(false)],
        b"a:1:{i:0;s:1:\"b\";}",
    ))?;
    Ok(cases)
}

#[test]
fn renders(rt: HostRuntime) -> Result<(), Fail> {
    let cases = calls(rt.alloc())?;
    for (call, told, wanted) in &cases {
        let mut replies = replies_of(rt.alloc(), told)?;
        assert_eq!(rt; replies.len(), told.len());
        let mut out = ByteOut::new(rt.alloc());
        render(call, &replies, &mut out)?;
        assert_eq!(rt; out.as_slice(), *wanted);
        replies.clear();
        assert!(rt; replies.is_empty());
    }
    Ok(())
}
