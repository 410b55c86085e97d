//! A whole source, read to its end.

ghost use Rattle.std.specs.Prelude.{◌≡◌, ◌+◌, ◌<◌, ◌≤◌, length, IfOk, IfSome, OnOk, OnErr};
ghost use Rattle.std.specs.Prelude.{IsErrOf, vec_len};
ghost use Rattle.std.specs.Io.KnownBytes.{prepend_known, IsAtEnd};
ghost use Rattle.io_edges.specs.Faults.{Rose};
ghost use Rattle.io_edges.specs.Reading.{HasTaken, HasTakenWithin};

use crate::{Got, Source};
use std::alloc::{AllocError, Global};
use thiserror::Error;

/// Why a source was not read to its end.
#[derive(Debug, Drop, Error)]
pub enum ReadError {
    /// No memory was found.
    #[error("out of memory")]
    Memory,
    /// A read of the source failed.
    #[error("read fault")]
    Fault,
    /// The source has more bytes than the limit.
    #[error("input too long")]
    TooLong,
}

// The most bytes that one read is asked for.
const PIECE: usize = 65536;

/// Reads all that a source has left, if that is at most `limit` bytes; it reads at most one byte
/// more. The memory that it allocates grows with the bytes that were read. After an error these
/// bytes are lost.
pub fn read_all<S: Source>(alloc: Global, input: &mut S, limit: usize) -> Result<Vec<u8>, ReadError>
    // The bytes are all that was left, and nothing is left now.
    ensures all { IfOk result (λ bytes. IfSome (S.left input.old) (λ left. bytes.items ≡ left)) }
    ensures given { IfOk result (λ bytes.
        S.left input.old ≡ prepend_known bytes.items (S.left input.new)) }
    ensures end { OnOk result (IsAtEnd (S.left input.new)) }
    ensures within { IfOk result (λ bytes. vec_len bytes ≤ limit) }

    // It is too long if more than the limit was left, of which just one more was read.
    ensures too_long { IsErrOf result ReadError.TooLong
        → IfSome (S.left input.old) (λ left. limit < length left) }
    ensures one_more { IsErrOf result ReadError.TooLong
        → HasTaken (S.left input.old) (S.left input.new) (limit + 1) }

    // A fault is a fault of the source in this call.
    ensures fault { IsErrOf result ReadError.Fault
        → Rose (S.faults input.old) (S.faults input.new) }
    ensures calm { ¬ IsErrOf result ReadError.Fault
        → S.faults input.new ≡ S.faults input.old }
    ensures never_falls { S.faults input.old ≤ S.faults input.new }

    // After any other error a part of what was left is lost, and no more of it than the limit.
    ensures part { OnErr result (¬ IsErrOf result ReadError.TooLong
        → HasTakenWithin (S.left input.old) (S.left input.new) limit) }
{
    let mut buffer = buffer_of(alloc, PIECE).map_err(|_| ReadError::Memory)?;
    let mut bytes = Vec::new(alloc);
    'turns: loop {
        let spare = limit - bytes.len();
        let room = spare.min(PIECE - 1) + 1;
        let piece = &mut buffer[..room];
        match input.read(piece) {
            Got::Took(count) if count > spare => return Err(ReadError::TooLong),
            Got::Took(count) => bytes
                .extend_from_slice(&piece[..count])
                .map_err(|_| ReadError::Memory)?,
            Got::End => return Ok(bytes),
            Got::Failed => return Err(ReadError::Fault),
        }
    }
}

fn buffer_of(alloc: Global, size: usize) -> Result<Vec<u8>, AllocError>
    ensures { IfOk result (λ buffer. vec_len buffer ≡ size) }
{
    vec![in alloc; 0; size]
}
