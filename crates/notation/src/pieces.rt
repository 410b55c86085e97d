//! The parts of a text, each appended as a whole.

ghost use Rattle.std.specs.Prelude.{◌≡◌, ℕ, ◌+◌, ◌<◌, ◌^◌, List, [], ◌∷◌, ◌++◌, length, codes};
ghost use Rattle.std.specs.Prelude.{slice_get, OnOk, OnErr, IfOk, IsSome, MatchOption, Some, None};
ghost use Rattle.std.specs.Prelude.{ℤ};
ghost use Rattle.std.specs.Fmt.{decimal};
ghost use Rattle.php_graph.specs.Numbers.{int_of_text};
ghost use Rattle.php_graph.specs.Building.{is_container};
ghost use Rattle.php_graph.specs.declared.kind.Kind.{Kind};
ghost use Rattle.php_graph.specs.declared.key.Key.{Key};
ghost use Rattle.php_graph.specs.declared.child.Child.{Child};
ghost use Rattle.notation.specs.Notation.{integer_text, string_text, key_text, array_head};
ghost use Rattle.notation.specs.Notation.{object_head};
ghost use Rattle.notation.specs.Keys.{written_key};
ghost use Rattle.notation.specs.Parts.{start_text, members_of, string_head};
ghost use Rattle.notation.specs.Appending.{Extends, MemberStep};

use crate::byte_out::ByteOut;
use itoa::Buffer;
use php_graph::{Bytes, Child, Key, Kind, int_of_text};
use std::alloc::AllocError;

/// Appends a key's text: `i:n;` if the key is the canonical decimal of the 64-bit integer n, as PHP
/// takes it for that integer, and otherwise `s:len:"key";`. Without memory `out` is unchanged.
pub fn write_key(key: &[u8], out: &mut ByteOut) -> Result<(), AllocError>
    ensures ok { OnOk result (out.new ≡ out.old ++ written_key (int_of_text key.now) key.now) }
    ensures err { OnErr result (out.new ≡ out.old) }
{
    let before = out.as_slice().len();
    let written = match int_of_text(key) {
        Some(n) => put_integer(n, out),
        None => put_string(key, out),
    };
    match written {
        Ok(()) => Ok(()),
        Err(fault) => {
            out.cut(before);
            Err(fault)
        }
    }
}

// A place up to its members, and whether members follow.
pub(crate) fn put_start(kind: &Kind, base: u64, out: &mut ByteOut) -> Result<bool, AllocError>
    requires { base < 2 ^ 56 }
    ensures ok { IfOk result (λ opened. (out.new ≡ out.old ++ start_text base kind.now)
        × (opened ≡ is_container kind.now)) }
    ensures err { OnErr result (Extends out.old out.new) }
{
    match kind {
        Kind::Null => out.push(b"N;")?,
        Kind::Bool(true) => out.push(b"b:1;")?,
        Kind::Bool(false) => out.push(b"b:0;")?,
        Kind::Int(n) => put_integer(*n, out)?,
        Kind::Str(bytes) => put_string(bytes.as_slice(), out)?,
        Kind::Array(members) => {
            put_array_head(members.len(), out)?;
            return Ok(true);
        }
        Kind::Object(class, props) => {
            put_object_head(class.as_slice(), props.len(), out)?;
            return Ok(true);
        }
        Kind::Same(x) => put_number(b"r:", u64::from(*x) + base, out)?,
    }
    Ok(false)
}

// The key of the member with this number, and what the member holds; nothing after the last member.
pub(crate) fn put_key_of(
    kind: &Kind,
    i: u32,
    out: &mut ByteOut,
) -> Result<Option<Child>, AllocError>
    ensures ok { IfOk result (λ held. MemberStep
        (slice_get (members_of kind.now) i) held out.old out.new) }
    ensures next { IfOk result (λ held. IsSome held → i + 1 < 2 ^ 32) }
    ensures err { OnErr result (Extends out.old out.new) }
{
    match kind {
        Kind::Array(members) => {
            if i >= members.len() {
                return Ok(None);
            }
            let (key, child) = members.at(i);
            put_key(key, out)?;
            Ok(Some(child))
        }
        Kind::Object(_, props) => {
            if i >= props.len() {
                return Ok(None);
            }
            let (name, child) = props.at(i);
            put_string(name.as_slice(), out)?;
            Ok(Some(child))
        }
        _ => Ok(None),
    }
}

fn put_key(key: &Key, out: &mut ByteOut) -> Result<(), AllocError>
    ensures ok { OnOk result (out.new ≡ out.old ++ key_text key.now) }
    ensures err { OnErr result (Extends out.old out.new) }
{
    match key {
        Key::Int(n) => put_integer(*n, out),
        Key::Str(bytes) => put_string(bytes.as_slice(), out),
    }
}

fn put_array_head(count: u32, out: &mut ByteOut) -> Result<(), AllocError>
    ensures ok { OnOk result (out.new ≡ out.old ++ array_head count) }
    ensures err { OnErr result (Extends out.old out.new) }
{
    let mut buffer = Buffer::new();
    out.push(b"a:")?;
    out.push(buffer.format(count).as_bytes())?;
    out.push(b":{")
}

fn put_object_head(class: &[u8], count: u32, out: &mut ByteOut) -> Result<(), AllocError>
    ensures ok { OnOk result (out.new ≡ out.old ++ object_head class.now count) }
    ensures err { OnErr result (Extends out.old out.new) }
{
    let mut length = Buffer::new();
    let mut members = Buffer::new();
    out.push(b"O:")?;
    out.push(length.format(class.len()).as_bytes())?;
    out.push(b":\"")?;
    out.push(class)?;
    out.push(b"\":")?;
    out.push(members.format(count).as_bytes())?;
    out.push(b":{")
}

fn put_integer(n: i64, out: &mut ByteOut) -> Result<(), AllocError>
    ensures ok { OnOk result (out.new ≡ out.old ++ integer_text n) }
    ensures err { OnErr result (Extends out.old out.new) }
{
    let mut buffer = Buffer::new();
    out.push(b"i:")?;
    out.push(buffer.format(n).as_bytes())?;
    out.push(b";")
}

/// Appends what precedes the bytes of a string of `count` bytes. Without memory only the first part
/// of it may have been appended.
pub fn write_string_head(count: usize, out: &mut ByteOut) -> Result<(), AllocError>
    ensures ok { OnOk result (out.new ≡ out.old ++ string_head count) }
    ensures err { OnErr result (Extends out.old out.new) }
{
    // Most strings are short: their head is gathered, and appended at once.
    if count < 10 {
        return out.push(&[b's', b':', digit(count), b':', b'"']);
    }
    if count < 100 {
        let (tens, ones) = (digit(count / 10), digit(count % 10));
        return out.push(&[b's', b':', tens, ones, b':', b'"']);
    }
    if count < 1000 {
        let (tens, ones) = (digit(count / 10 % 10), digit(count % 10));
        return out.push(&[b's', b':', digit(count / 100), tens, ones, b':', b'"']);
    }
    let mut buffer = Buffer::new();
    out.push(b"s:")?;
    out.push(buffer.format(count).as_bytes())?;
    out.push(b":\"")
}

// The digit of a number below ten.
fn digit(n: usize) -> u8
    requires { n < 10 }
    ensures { result ≡ 48 + n }
{
    b'0' + n as u8
}

fn put_string(bytes: &[u8], out: &mut ByteOut) -> Result<(), AllocError>
    ensures ok { OnOk result (out.new ≡ out.old ++ string_text bytes.now) }
    ensures err { OnErr result (Extends out.old out.new) }
{
    write_string_head(bytes.len(), out)?;
    out.push(bytes)?;
    out.push(b"\";")
}

// The number of a place.
pub(crate) fn put_number(letter: &[u8], n: u64, out: &mut ByteOut) -> Result<(), AllocError>
    ensures ok { OnOk result (out.new ≡ out.old ++ (letter.now ++ decimal n ++ codes ";")) }
    ensures err { OnErr result (Extends out.old out.new) }
{
    let mut buffer = Buffer::new();
    out.push(letter)?;
    out.push(buffer.format(n).as_bytes())?;
    out.push(b";")
}
