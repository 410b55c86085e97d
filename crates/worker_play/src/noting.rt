//! What is kept of a call's replies until its line is printed.

ghost use Rattle.std.specs.Prelude.{◌≡◌, ◌<◌, ◌^◌, ◌++◌, List, [], ◌∷◌, length, map, if◌then◌else◌};
ghost use Rattle.std.specs.Prelude.{codes, IfOk, OnOk};
ghost use Rattle.php_graph.specs.declared.kind.Kind.{Kind};
ghost use Rattle.apcu_model.specs.declared.request.Reply.{Reply};
ghost use Rattle.apcu_model.specs.declared.request.Reply.TheVariants.{Flag};
ghost use Rattle.reply_text.specs.Replies.{array_text, value_members, fetched, noted_if, there_in};
ghost use Rattle.reply_text.specs.Replies.{value_in};

use notation::ByteOut;
use php_graph::{Bytes, Graph};
use reply_text::{Notes, write_flag, write_values};
use std::alloc::AllocError;

// Keeps a key for which something was not done.
pub(crate) fn note_undone<'a>(
    undone: &mut Vec<&'a Bytes>,
    key: &'a Bytes,
    done: bool,
) -> Result<(), AllocError>
    ensures { OnOk result (map (λ key. key.now) undone.new.items
        ≡ map (λ key. key.now) undone.old.items ++ (if done then [] else key.now ∷ [])) }
{
    if !done {
        undone.push(key)?;
    }
    Ok(())
}

// Notes a key that exists.
pub(crate) fn note_there<'a>(
    there: &mut Notes<'a, ()>,
    key: &'a Bytes,
    found: bool,
) -> Result<(), AllocError>
    ensures { OnOk result (there.new ≡ noted_if key.now (there_in (Flag found)) there.old) }
{
    if found {
        there.note(key, ())?;
    }
    Ok(())
}

// Notes the value that a fetch found, if one.
pub(crate) fn note_value<'a>(
    values: &mut Notes<'a, Graph>,
    key: &'a Bytes,
    found: Result<Option<Graph>, AllocError>,
) -> Result<(), AllocError>
    ensures { (y : Reply) → IfOk found (λ found. fetched found ≡ y)
        → OnOk result (values.new ≡ noted_if key.now (value_in y) values.old) }
{
    if let Some(value) = found? {
        values.note(key, value)?;
    }
    Ok(())
}

// The values that were found, and that it was done.
pub(crate) fn write_found(out: &mut ByteOut, values: &Notes<'_, Graph>) -> Result<(), AllocError>
    requires { length values.now < 2 ^ 32 }
    ensures { OnOk result (out.new
        ≡ out.old ++ array_text (value_members 1 values.now) ++ codes "b:1;") }
{
    write_values(out, values.as_slice())?;
    write_flag(out, true)
}
