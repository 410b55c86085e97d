//! Fields of an iterator's items: those that are selected, as an array.

ghost use Rattle.std.specs.Prelude.{◌≡◌, ◌+◌, ◌*◌, ◌^◌, ◌<◌, ◌≤◌, ◌==◌, ◌++◌, [], ◌∷◌, length, map};
ghost use Rattle.std.specs.Prelude.{IfOk, OnOk, unwrap_or};
ghost use Rattle.std.specs.Int.{bit_at};
ghost use Rattle.php_graph.specs.declared.kind.Kind.TheVariants as kinds;
ghost use Rattle.notation.specs.Notation.{text_from};
ghost use Rattle.reply_text.specs.Replies.{members_text, value_members, array_text};
ghost use Rattle.reply_text.specs.Items.{numbers_of, if_chosen, chosen_from};
ghost use Rattle.reply_text.specs.Fields.{held_value, field_value};

use crate::replies::{write_count, write_head, write_string};
use apcu_model::Fields;
use notation::{ByteOut, write_key, write_value};
use php_graph::Graph;
use std::alloc::AllocError;

// What a field holds.
#[derive(Clone, Copy, Debug)]
pub(crate) enum Held<'a> {
    Text(&'a [u8]),
    Number(u64),
    Value(&'a Graph),
    Null,
}

// The value, or null if there is none.
pub(crate) fn value_or_null(value: &Option<Graph>) -> Held<'_>
    ensures { held_value result ≡ unwrap_or value.now (kinds.Null ∷ []) }
{
    match value {
        Some(value) => Held::Value(value),
        None => Held::Null,
    }
}

// Whether the field with this bit is selected.
fn is_chosen(fields: Fields, bit: usize) -> bool
    requires { bit < 16 }
    ensures { result ≡ (bit_at fields.0 bit == 1) }
{
    (fields.0 >> bit) & 1 == 1
}

// The number of these fields that are selected.
fn chosen_count(fields: Fields, all: &[(&[u8], Held)]) -> usize
    requires { length all.now ≤ 16 }
    ensures { result ≡ length (chosen_from 0 fields (map field_value all.now)) }
{
    let mut count = 0;
    for bit in 0..all.len() {
        count += usize::from(is_chosen(fields, bit));
    }
    count
}

// The value that a field holds, after `base` values of the reply.
fn write_held_value(out: &mut ByteOut, held: Held, base: u64) -> Result<(), AllocError>
    requires { base < 2 ^ 56 }
    ensures { OnOk result (out.new ≡ out.old ++ text_from base (held_value held.entry)) }
{
    match held {
        Held::Text(bytes) => write_string(out, bytes),
        Held::Number(n) => write_count(out, n),
        Held::Value(value) => write_value(value, base, out),
        Held::Null => out.push(b"N;"),
    }
}

// The number of its values that take a number.
fn places_of(held: Held) -> u32
    ensures count { result ≡ length (held_value held.entry) }
    ensures few { result ≤ 2 ^ 24 }
{
    match held {
        Held::Value(value) => value.places(),
        _ => 1,
    }
}

// The value that a field holds, after `base` values of the reply. Returns the number of its values
// that take a number.
fn write_held(out: &mut ByteOut, held: Held, base: u64) -> Result<u32, AllocError>
    requires { base < 2 ^ 56 }
    ensures text { OnOk result (out.new ≡ out.old ++ text_from base (held_value held.entry)) }
    ensures count { IfOk result (λ count. count ≡ length (held_value held.entry)) }
    ensures few { IfOk result (λ count. count ≤ 2 ^ 24) }
{
    write_held_value(out, held, base)?;
    Ok(places_of(held))
}

// The field, if it is selected. Returns how many values of the reply precede what follows.
fn write_field(
    out: &mut ByteOut,
    fields: Fields,
    bit: usize,
    field: (&[u8], Held),
    base: u64,
) -> Result<u64, AllocError>
    requires bit { bit < 16 }
    requires base { base < 2 ^ 56 }
    ensures text { OnOk result (out.new ≡ out.old
        ++ members_text (value_members base (if_chosen fields bit (field_value field.entry)))) }
    ensures next { IfOk result (λ next. next
        ≡ base + numbers_of (if_chosen fields bit (field_value field.entry))) }
    ensures few { IfOk result (λ next. next ≤ base + 2 ^ 24) }
{
    if !is_chosen(fields, bit) {
        return Ok(base);
    }
    write_key(field.0, out)?;
    Ok(base + u64::from(write_held(out, field.1, base)?))
}

// An array of those of these fields that are selected, after `base` values of the reply; the first
// field has the bit 0. Returns how many values precede what follows.
pub(crate) fn write_chosen(
    out: &mut ByteOut,
    fields: Fields,
    all: &[(&[u8], Held)],
    base: u64,
) -> Result<u64, AllocError>
    requires few { length all.now ≤ 16 }
    requires base { base < 2 ^ 55 }
    ensures text { OnOk result (out.new ≡ out.old ++ array_text
        (value_members (base + 1) (chosen_from 0 fields (map field_value all.now)))) }
    ensures next { IfOk result (λ next. next
        ≡ base + (1 + numbers_of (chosen_from 0 fields (map field_value all.now)))) }
{
    write_head(out, chosen_count(fields, all))?;
    let mut next = base + 1;
    for (bit, field) in all.iter().enumerate() {
        next = write_field(out, fields, bit, *field, next)?;
    }
    out.push(b"}")?;
    Ok(next)
}
