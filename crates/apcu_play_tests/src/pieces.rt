//! Texts with long runs of one letter.

use notation::ByteOut;
use std::alloc::Global;
use std::test::Fail;

// A piece of a text: these bytes, or this many times the letter z.
#[derive(Clone, Copy)]
pub(crate) enum Piece {
    Text(&'static [u8]),
    Zs(u32),
}

pub(crate) fn spelled(alloc: Global, pieces: &[Piece]) -> Result<ByteOut, Fail> {
    let mut text = ByteOut::new(alloc);
    for piece in pieces {
        match *piece {
            Piece::Text(bytes) => text.push(bytes)?,
            Piece::Zs(count) => {
                for _letter in 0..count {
                    text.push(b"z")?;
                }
            }
        }
    }
    Ok(text)
}
