//! What a call prints for its own replies, in serialize notation.

ghost use Rattle.std.specs.Prelude.{◌≡◌, ℕ, ◌+◌, ◌<◌, ◌^◌, ◌++◌, List, [], length, map, codes};
ghost use Rattle.std.specs.Prelude.{◌-◌, min, pos, OnOk, Option};
ghost use Rattle.std.specs.Option.{option_map};
ghost use Rattle.std.specs.Fmt.{decimal};
ghost use Rattle.php_graph.specs.Numbers.{int_of_text};
ghost use Rattle.notation.specs.Keys.{written_key};
ghost use Rattle.notation.specs.Notation.{array_head, integer_text, string_text};
ghost use Rattle.apcu_model.specs.declared.request.Reply.TheVariants.{Gave, Totals};
ghost use Rattle.apcu_model.specs.Sequential.{number_reply, info_reply};
ghost use Rattle.reply_text.specs.Replies.{flag_text, fetched, fetched_one, number_one, array_text};
ghost use Rattle.reply_text.specs.Replies.{all_with, numbered, value_members, gave_one, info_one};
ghost use Rattle.reply_text.specs.Items.{totals_one};

use crate::value::Value;
use itoa::Buffer;
use notation::{ByteOut, write_key, write_value};
use php_graph::{Bytes, Graph};
use std::alloc::AllocError;

/// A boolean.
pub fn write_flag(out: &mut ByteOut, done: bool) -> Result<(), AllocError>
    ensures { OnOk result (out.new ≡ out.old ++ flag_text done) }
{
    match done {
        true => out.push(b"b:1;"),
        false => out.push(b"b:0;"),
    }
}

/// The result of a fetch of one key: the value and that it was found, or that it was not.
pub fn write_fetched(out: &mut ByteOut, found: Option<&Graph>) -> Result<(), AllocError>
    ensures { OnOk result (out.new
        ≡ out.old ++ fetched_one (fetched (option_map (λ g. g.now) found.entry))) }
{
    match found {
        Some(value) => {
            write_value(value, 0, out)?;
            out.push(b"b:1;")
        }
        None => out.push(b"b:0;b:0;"),
    }
}

/// The new value of a counter and that it counted, or that it did not.
pub fn write_number(out: &mut ByteOut, number: Option<i64>) -> Result<(), AllocError>
    ensures { OnOk result (out.new ≡ out.old ++ number_one (number_reply number)) }
{
    match number {
        Some(n) => {
            write_integer(out, n)?;
            out.push(b"b:1;")
        }
        None => out.push(b"b:0;b:0;"),
    }
}

/// The value of `apcu_entry`.
pub fn write_gave(out: &mut ByteOut, value: &Graph) -> Result<(), AllocError>
    ensures { OnOk result (out.new ≡ out.old ++ gave_one (Gave value.now)) }
{
    write_value(value, 0, out)
}

/// The result of `apcu_key_info`, `apcu_cache_info` or `apcu_sma_info`, or a null if no live row
/// has the key.
pub fn write_info(out: &mut ByteOut, info: Option<&Graph>) -> Result<(), AllocError>
    ensures { OnOk result (out.new
        ≡ out.old ++ info_one (info_reply (option_map (λ g. g.now) info.entry))) }
{
    match info {
        Some(graph) => write_value(graph, 0, out),
        None => out.push(b"N;"),
    }
}

/// The totals of an iterator: the number of rows, the sum of their hits, and the number of bytes of
/// their blocks. A number from 2^63 on is printed as the maximum of 64 bits.
pub fn write_totals(out: &mut ByteOut, count: u64, hits: u64, size: u64) -> Result<(), AllocError>
    ensures { OnOk result (out.new ≡ out.old ++ totals_one (Totals count hits size)) }
{
    write_head(out, 3)?;
    write_total(out, b"count", count)?;
    write_total(out, b"hits", hits)?;
    write_total(out, b"size", size)?;
    out.push(b"}")
}

// A number under its name.
fn write_total(out: &mut ByteOut, name: &[u8], n: u64) -> Result<(), AllocError>
    ensures { OnOk result (out.new ≡ out.old ++ (written_key (int_of_text name.now) name.now
        ++ integer_text (pos (min n (2 ^ 63 - 1))))) }
{
    write_key(name, out)?;
    write_count(out, n)
}

// An integer.
fn write_integer(out: &mut ByteOut, n: i64) -> Result<(), AllocError>
    ensures { OnOk result (out.new ≡ out.old ++ integer_text n) }
{
    let mut digits = Buffer::new();
    out.push(b"i:")?;
    out.push(digits.format(n).as_bytes())?;
    out.push(b";")
}

// A number; from 2^63 on it becomes the maximum of 64 bits.
pub(crate) fn write_count(out: &mut ByteOut, n: u64) -> Result<(), AllocError>
    ensures { OnOk result (out.new ≡ out.old ++ integer_text (pos (min n (2 ^ 63 - 1)))) }
{
    let most = i64::MAX.cast_unsigned();
    write_integer(out, n.min(most).cast_signed())
}

// The beginning of an array of this many members.
pub(crate) fn write_head(out: &mut ByteOut, count: usize) -> Result<(), AllocError>
    ensures { OnOk result (out.new ≡ out.old ++ array_head count) }
{
    let mut digits = Buffer::new();
    out.push(b"a:")?;
    out.push(digits.format(count).as_bytes())?;
    out.push(b":{")
}

/// An array of these keys, each with the same result.
pub fn write_each(out: &mut ByteOut, keys: &[&Bytes], answer: &[u8]) -> Result<(), AllocError>
    ensures { OnOk result (out.new ≡ out.old ++ array_text
        (all_with answer.now (map (λ key. key.now) keys.now))) }
{
    write_head(out, keys.len())?;
    for key in keys {
        write_key(key.as_slice(), out)?;
        out.push(answer)?;
    }
    out.push(b"}")
}

/// An array of these keys, each with true.
pub fn write_flags(out: &mut ByteOut, notes: &[(&Bytes, ())]) -> Result<(), AllocError>
    ensures { OnOk result (out.new ≡ out.old
        ++ array_text (all_with (codes "b:1;")
        (map (λ (note : List ℕ × Unit {0}). note.0)
        (map (λ note. (note.0.now, note.1)) notes.now)))) }
{
    write_head(out, notes.len())?;
    for note in notes {
        write_key(note.0.as_slice(), out)?;
        out.push(b"b:1;")?;
    }
    out.push(b"}")
}

/// An array of these strings, numbered from 0.
#[tactic(auto, using(crate::proofs::MemberCounts::numbered_len))]
pub fn write_numbered(out: &mut ByteOut, strings: &[&Bytes]) -> Result<(), AllocError>
    ensures { OnOk result (out.new ≡ out.old ++ array_text
        (numbered 0 (map (λ string. string.now) strings.now))) }
{
    write_head(out, strings.len())?;
    for (i, string) in strings.iter().enumerate() {
        let mut digits = Buffer::new();
        write_key(digits.format(i).as_bytes(), out)?;
        write_string(out, string.as_slice())?;
    }
    out.push(b"}")
}

/// An array of these values under their keys, which is the first value of the reply.
#[tactic(auto, using(crate::proofs::MemberCounts::members_len))]
pub fn write_values<V: Value>(out: &mut ByteOut, values: &[(&Bytes, V)]) -> Result<(), AllocError>
    requires { length values.now < 2 ^ 32 }
    ensures { OnOk result (out.new ≡ out.old ++ array_text
        (value_members 1 (map (λ value. (value.0.now, V.kinds_of value.1)) values.now))) }
{
    write_head(out, values.len())?;
    let mut base = 1;
    for value in values {
        write_key(value.0.as_slice(), out)?;
        let graph = value.1.graph();
        write_value(graph, base, out)?;
        base += u64::from(graph.places());
    }
    out.push(b"}")
}

// A string.
pub(crate) fn write_string(out: &mut ByteOut, bytes: &[u8]) -> Result<(), AllocError>
    ensures { OnOk result (out.new ≡ out.old ++ string_text bytes.now) }
{
    let mut digits = Buffer::new();
    out.push(b"s:")?;
    out.push(digits.format(bytes.len()).as_bytes())?;
    out.push(b":\"")?;
    out.push(bytes)?;
    out.push(b"\";")
}
