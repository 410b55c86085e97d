//! What an iterator prints: the items of all its steps.

ghost use Rattle.std.specs.Prelude.{◌≡◌, ◌+◌, ◌≤◌, ◌++◌, length, map, IfOk, OnOk};
ghost use Rattle.std.specs.List.{flat_map, sum_by};
ghost use Rattle.reply_text.specs.Replies.{members_text};
ghost use Rattle.reply_text.specs.Items.{item_text, item_numbers, item_members, items_in};
ghost use Rattle.reply_text.specs.Items.{item_values, walk_text};
ghost use Rattle.reply_text.specs.Fields.{field_value};

use crate::fields::{Held, value_or_null, write_chosen};
use crate::replies::write_head;
use apcu_model::{Fields, ItemRow, Reply};
use itoa::Buffer;
use notation::{ByteOut, write_key};
use script_read::FIELDS;
use std::alloc::AllocError;

// No memory holds this many values.
const MOST_NUMBERS: u64 = 1 << 55;

// How far a walk's text was written.
#[derive(Clone, Copy, Debug)]
struct Position {
    // The key of the next item.
    key: u64,
    // The number of values that take a number before it.
    base: u64,
}

// The fields of an item, by the bits from 0 on.
fn fields_of(row: &ItemRow) -> [(&[u8], Held<'_>); 9]
    ensures { map field_value result ≡ item_values row.now }
{
    [
        (FIELDS[0].name, Held::Text(row.key.as_slice())),
        (FIELDS[1].name, value_or_null(&row.value)),
        (FIELDS[2].name, Held::Number(row.hits)),
        (FIELDS[3].name, Held::Number(row.mtime)),
        (FIELDS[4].name, Held::Number(row.ctime)),
        (FIELDS[5].name, Held::Number(row.dtime)),
        (FIELDS[6].name, Held::Number(row.atime)),
        (FIELDS[7].name, Held::Number(row.size)),
        (FIELDS[8].name, Held::Number(u64::from(row.ttl))),
    ]
}

// An item after `base` values of the reply. Returns how many values precede what follows.
fn write_item(
    out: &mut ByteOut,
    fields: Fields,
    row: &ItemRow,
    base: u64,
) -> Result<u64, AllocError>
    ensures text { OnOk result (out.new ≡ out.old ++ item_text fields base row.now) }
    ensures next { IfOk result (λ next. next ≡ base + item_numbers fields row.now) }
{
    if base >= MOST_NUMBERS {
        return Err(AllocError);
    }
    write_chosen(out, fields, &fields_of(row), base)
}

// The items of one step.
fn write_items(
    out: &mut ByteOut,
    fields: Fields,
    rows: &[ItemRow],
    from: Position,
) -> Result<Position, AllocError>
    requires { from.key ≤ from.base }
    ensures text { OnOk result (out.new ≡ out.old
        ++ members_text (item_members fields from.key from.base rows.now)) }
    ensures key { IfOk result (λ to. to.key ≡ from.key + length rows.now) }
    ensures base { IfOk result (λ to. to.base
        ≡ from.base + sum_by (item_numbers fields) rows.now) }
    ensures fits { IfOk result (λ to. to.key ≤ to.base) }
{
    let mut reached = from;
    for row in rows {
        let mut digits = Buffer::new();
        write_key(digits.format(reached.key).as_bytes(), out)?;
        let base = write_item(out, fields, row, reached.base)?;
        reached = Position {
            key: reached.key + 1,
            base,
        };
    }
    Ok(reached)
}

// The items of a step.
fn items_of(reply: &Reply) -> &[ItemRow]
    ensures { result.now ≡ items_in reply.now }
{
    match reply {
        Reply::Chunk(chunk) => chunk.items.as_slice(),
        _ => &[],
    }
}

// The number of items of these steps.
fn count_items(steps: &[Reply]) -> Result<usize, AllocError>
    ensures { IfOk result (λ count. count ≡ length (flat_map items_in steps.now)) }
{
    let mut count: usize = 0;
    for step in steps {
        let more = items_of(step).len();
        count = count.checked_add(more).ok_or(AllocError)?;
    }
    Ok(count)
}

/// The items of an iterator's steps, in order: an array with the keys 0, 1 and so on. An item is an
/// array of the fields that are selected, in the order of their bits; a number from 2^63 on is
/// printed as the maximum of 64 bits. What is inside a value is numbered after all that precedes
/// it. A reply that is no step has no items. If 2^55 values precede an item, it fails as without
/// memory.
pub fn write_walk(out: &mut ByteOut, fields: Fields, steps: &[Reply]) -> Result<(), AllocError>
    ensures { OnOk result (out.new ≡ out.old ++ walk_text fields steps.now) }
{
    write_head(out, count_items(steps)?)?;
    let mut reached = Position { key: 0, base: 1 };
    for step in steps {
        reached = write_items(out, fields, items_of(step), reached)?;
    }
    out.push(b"}")
}
