//! Printing a journal.

ghost use Rattle.std.specs.Prelude.{◌≡◌, ◌++◌, ◌<◌, ◌≤◌, OnOk};
ghost use Rattle.std.specs.Fmt.{decimal};
ghost use Rattle.script_read.specs.Grammar.{ends_line};
ghost use Rattle.reply_text.specs.Output.{journal_lines, mark_line, mask_text};

use apcu_model::{Journal, Mark};
use itoa::Buffer;
use notation::ByteOut;
use std::alloc::AllocError;

/// Writes the journal's lines.
pub(crate) fn write_journal(out: &mut ByteOut, journal: &Journal) -> Result<(), AllocError>
    ensures { OnOk result (out.new ≡ out.old ++ journal_lines journal.now.marks) }
{
    out.push(b"journal\n")?;
    for i in 0..journal.len() {
        write_mark(out, journal.at(i))?;
    }
    Ok(())
}

// A journal's line.
fn write_mark(out: &mut ByteOut, mark: Mark) -> Result<(), AllocError>
    ensures { OnOk result (out.new ≡ out.old ++ mark_line mark) }
{
    // Most events are of one of the first ten workers, and have an empty mask.
    if mark.mask == 0 && mark.worker < 10 {
        return write_digit(out, mark.worker);
    }
    write_number(out, mark.worker)?;
    write_mask(out, mark.mask, 64)?;
    out.push(b"\n")
}

// The line of one of the first ten workers with an empty mask.
fn write_digit(out: &mut ByteOut, worker: u32) -> Result<(), AllocError>
    requires { worker < 10 }
    ensures { OnOk result (out.new ≡ out.old ++ (decimal worker ++ ends_line)) }
{
    out.push(&[b'0' + worker as u8, b'\n'])
}

// The workers of a mask that come before this one.
fn write_mask(out: &mut ByteOut, mask: u64, workers: u32) -> Result<(), AllocError>
    requires { workers ≤ 64 }
    ensures { OnOk result (out.new ≡ out.old ++ mask_text mask workers) }
{
    // The mask of most events is empty.
    if mask == 0 {
        return Ok(());
    }
    for worker in 0..workers {
        if (mask >> worker) % 2 == 1 {
            out.push(b" ")?;
            write_number(out, worker)?;
        }
    }
    Ok(())
}

fn write_number(out: &mut ByteOut, number: u32) -> Result<(), AllocError>
    ensures { OnOk result (out.new ≡ out.old ++ decimal number) }
{
    let mut buffer = Buffer::new();
    out.push(buffer.format(number).as_bytes())
}
