//! The lines of a map, each appended as a whole.

ghost use Rattle.std.specs.Prelude.{◌≡◌, ◌++◌, codes, OnOk, OnErr};
ghost use Rattle.std.specs.Fmt.{decimal};
ghost use Rattle.notation.specs.Appending.{Extends};
ghost use Rattle.seg_report.specs.Lines.{extent_text, key_end, number_line, row_word};

use itoa::Buffer;
use notation::{ByteOut, write_key};
use std::alloc::AllocError;

// A word, a number and the end of the line.
fn put_number(out: &mut ByteOut, word: &[u8], n: u64, end: &[u8]) -> Result<(), AllocError>
    ensures ok { OnOk result (out.new ≡ out.old ++ (word.now ++ (decimal n ++ end.now))) }
    ensures err { OnErr result (Extends out.old out.new) }
{
    let mut digits = Buffer::new();
    out.push(word)?;
    out.push(digits.format(n).as_bytes())?;
    out.push(end)
}

// A word and a number.
pub(crate) fn put_count(out: &mut ByteOut, word: &[u8], n: u64) -> Result<(), AllocError>
    ensures ok { OnOk result (out.new ≡ out.old ++ number_line word.now n) }
    ensures err { OnErr result (Extends out.old out.new) }
{
    put_number(out, word, n, b"\n")
}

// A word, two numbers and the end of the line.
fn put_two(
    out: &mut ByteOut,
    word: &[u8],
    first: u32,
    second: u32,
    end: &[u8],
) -> Result<(), AllocError>
    ensures ok { OnOk result (out.new
        ≡ out.old ++ (word.now ++ (extent_text first second ++ end.now))) }
    ensures err { OnErr result (Extends out.old out.new) }
{
    put_number(out, word, u64::from(first), b" ")?;
    put_number(out, b"", u64::from(second), end)
}

// A word, a number and another one.
pub(crate) fn put_pair(
    out: &mut ByteOut,
    word: &[u8],
    first: u32,
    second: u32,
) -> Result<(), AllocError>
    ensures ok { OnOk result (out.new
        ≡ out.old ++ (word.now ++ (extent_text first second ++ codes "\n"))) }
    ensures err { OnErr result (Extends out.old out.new) }
{
    put_two(out, word, first, second, b"\n")
}

// A row's number and key.
fn put_key(out: &mut ByteOut, number: u64, key: &[u8]) -> Result<(), AllocError>
    ensures ok { OnOk result (out.new ≡ out.old ++ key_end number key.now) }
    ensures err { OnErr result (Extends out.old out.new) }
{
    put_number(out, b"", number, b" ")?;
    write_key(key, out)?;
    out.push(b"\n")
}

// The first word of the line of a row's block, or of a removed row's.
fn word_for(gone: bool) -> &'static [u8]
    ensures { result.now ≡ row_word gone }
{
    if gone { b"removed " } else { b"row " }
}

// The place and the size of the block of a row or a removed one, the row's number and key.
pub(crate) fn put_entry(
    out: &mut ByteOut,
    gone: bool,
    place: u32,
    size: u32,
    number: u64,
    key: &[u8],
) -> Result<(), AllocError>
    ensures ok { OnOk result (out.new ≡ out.old
        ++ (row_word gone ++ (extent_text place size ++ (codes " " ++ key_end number key.now)))) }
    ensures err { OnErr result (Extends out.old out.new) }
{
    put_two(out, word_for(gone), place, size, b" ")?;
    put_key(out, number, key)
}
