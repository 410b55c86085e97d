//! Fetched values that are copied as their texts.

ghost use Rattle.std.specs.Prelude.{◌≡◌, ◌+◌, ◌≤◌, [], ◌∷◌};

use crate::meeting::{CONF, two_passes};
use crate::steps::put;
use notation::{ByteOut, Cursor, read_value};
use php_graph::Graph;
use pin_table::{Pass, TableName};
use shared_cache::{Fresh, Pinned, Shared, open_cache};
use std::alloc::Global;
use std::marker::Brand;
use std::sync::Wait;
use std::test::Fail;

// A row stores the value of a text, which is to be printed again: strings of no byte, of part of a
// word, of whole words, and of more than eight words with part of one, and a value that is no
// string.
const TEXTS: [&[u8]; 5] = [
    b"s:0:\"\";",
    b"s:5:\"hello\";",
    b"s:16:\"sixteen of them!\";",
    b"s:77:\"0123456701234567012345670123456701234567012345670123456701234567eight words..\";",
    b"a:2:{i:0;s:5:\"hello\";s:1:\"k\";b:1;}",
];

// The worker stores the value and prints what it fetches, after what is already there.
fn prints<N: TableName, R: Wait>(
    rt: &R,
    alloc: Global,
    shared: &Shared<N>,
    pass: Pass,
    value: &Graph,
    out: &mut ByteOut,
) -> bool
    requires table { pass.table ≡ N.table }
    requires left { 3 ≤ pass.known.left }
{
    let (pass, _) = put(rt, shared, pass, b"a", value, false);
    match shared.pin(rt, pass, b"a", 6) {
        Pinned::Hit(copying) => {
            let (_, copied) = shared.copy_text(alloc, copying, out);
            copied.is_ok()
        }
        Pinned::Scalar(_, _) | Pinned::Miss(_) => false,
    }
}

fn printed<N: TableName, R: Wait>(
    rt: &R,
    alloc: Global,
    fresh: Fresh,
    value: &Graph,
    out: &mut ByteOut,
) -> bool
    requires table { N.table ≡ fresh.table }
    requires conf { N.conf ≡ fresh.conf }
    requires budgets { N.budgets ≡ fresh.budgets }
    requires two { fresh.budgets ≡ 3 ∷ 3 ∷ [] }
{
    let (shared, mut passes, _) = fresh.name::<N>();
    let Some((first, _)) = two_passes::<N>(&mut passes) else {
        return false;
    };
    prints(rt, alloc, &shared, first, value, out)
}

#[test]
fn values_are_copied_as_texts(rt: HostRuntime) -> Result<(), Fail> {
    for text in TEXTS {
        let mut from = Cursor::new(text);
        let value = read_value(rt.alloc(), &mut from)?;
        let mut out = ByteOut::new(rt.alloc());
        out.push(b"line ")?;
        let Ok(fresh) = open_cache(&rt, rt.alloc(), &CONF, &[3, 3]) else {
            return Err(Fail::new("open_cache"));
        };
        assert!(rt; printed::<Brand, _>(&rt, rt.alloc(), fresh, &value, &mut out));
        let copied = out
            .as_slice()
            .strip_prefix(b"line ".as_slice())
            .unwrap_or(&[]);
        assert!(rt; copied == text);
    }
    Ok(())
}
