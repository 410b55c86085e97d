//! The parts of a bundle, read one after the other.

ghost use Rattle.std.specs.Prelude.{◌≡◌, ◌<◌, OnOk};
ghost use Rattle.notation.specs.Place.{left};
ghost use Rattle.script_read.specs.Arguments.{key};
ghost use Rattle.script_read.specs.Reading.{choice_at};
ghost use Rattle.preload_set.specs.Reading.{due_byte_at, record_at};
ghost use Rattle.preload_set.specs.Gives.{ReadsFromTo};

use notation::{Cursor, ReadFault, Reason, read_value};
use php_graph::{Bytes, Graph};
use std::alloc::Global;

// A string value.
fn key(alloc: Global, from: &mut Cursor) -> Result<Bytes, ReadFault>
    ensures read { ReadsFromTo (choice_at key (left from.old)) from.old from.new result }
    ensures bytes { from.new.bytes ≡ from.old.bytes }
    ensures on { OnOk result (from.old.place < from.new.place) }
{
    let place = from.place();
    match read_value(alloc, from)?.into_string() {
        Ok(key) => Ok(key),
        Err(_) => Err(ReadFault::Bad {
            place,
            reason: Reason::Argument,
        }),
    }
}

// The expected byte.
fn separator(from: &mut Cursor, due: u8) -> Result<(), ReadFault>
    ensures read { ReadsFromTo (due_byte_at due (left from.old)) from.old from.new result }
    ensures bytes { from.new.bytes ≡ from.old.bytes }
    ensures on { OnOk result (from.old.place < from.new.place) }
{
    let reason = match from.peek() {
        None => Reason::End,
        Some(byte) if byte == due => {
            from.skip();
            return Ok(());
        }
        Some(_) => Reason::Separator,
    };
    Err(ReadFault::Bad {
        place: from.place(),
        reason,
    })
}

// A key and its value, to the end of their line.
pub(crate) fn record(alloc: Global, from: &mut Cursor) -> Result<(Bytes, Graph), ReadFault>
    ensures read { ReadsFromTo (record_at (left from.old)) from.old from.new result }
    ensures bytes { from.new.bytes ≡ from.old.bytes }
    ensures on { OnOk result (from.old.place < from.new.place) }
{
    let key = key(alloc, from)?;
    separator(from, b' ')?;
    let value = read_value(alloc, from)?;
    separator(from, b'\n')?;
    Ok((key, value))
}
