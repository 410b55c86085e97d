//! Comparing an output with the expected one, piece by piece.

ghost use Rattle.std.specs.Prelude.{◌≡◌, ◌≤◌, ◌++◌, length, drop, IfOk, IfErr};
ghost use Rattle.reply_text.specs.Output.{worker_texts};
ghost use Rattle.run_verify.specs.TextPieces.{HasPiece, DiffersAt, worker_text};
ghost use Rattle.run_verify.specs.Verdicts.{first_difference};

use itoa::Buffer;
use notation::ByteOut;

// Whether the piece is in the output at `at`: its end, or the first place that differs.
pub(crate) fn match_piece(output: &[u8], at: usize, piece: &[u8]) -> Result<usize, usize>
    requires { at ≤ length output.now }
    ensures has { IfOk result (λ to. HasPiece output.now at piece.now to) }
    ensures differs { IfErr result (λ place. DiffersAt output.now at piece.now place) }
{
    let left = &output[at..];
    for (i, byte) in piece.iter().enumerate() {
        if i >= left.len() || left[i] != *byte {
            return Err(at + i);
        }
    }
    Ok(at + piece.len())
}

// Whether two pieces are there, one after the other.
pub(crate) fn match_both(
    output: &[u8],
    at: usize,
    first: &[u8],
    second: &[u8],
) -> Result<usize, usize>
    requires { at ≤ length output.now }
    ensures has { IfOk result (λ to. HasPiece output.now at (first.now ++ second.now) to) }
    ensures differs { IfErr result (λ place.
        DiffersAt output.now at (first.now ++ second.now) place) }
{
    match match_piece(output, at, first) {
        Ok(mid) => match_piece(output, mid, second),
        Err(place) => Err(place),
    }
}

// Whether the line and the text of a worker are there.
fn match_worker(output: &[u8], at: usize, worker: usize, text: &[u8]) -> Result<usize, usize>
    requires { at ≤ length output.now }
    ensures has { IfOk result (λ to. HasPiece output.now at (worker_text worker text.now) to) }
    ensures differs { IfErr result (λ place.
        DiffersAt output.now at (worker_text worker text.now) place) }
{
    let mut digits = Buffer::new();
    match match_both(output, at, b"worker ", digits.format(worker).as_bytes()) {
        Ok(mid) => match_both(output, mid, b"\n", text),
        Err(place) => Err(place),
    }
}

// Whether the lines and texts of all workers are at the output's beginning.
fn match_workers(output: &[u8], texts: &[ByteOut]) -> Result<usize, usize>
    ensures has { IfOk result (λ to. HasPiece output.now 0 (worker_texts 0 texts.now) to) }
    ensures differs { IfErr result (λ place.
        DiffersAt output.now 0 (worker_texts 0 texts.now) place) }
{
    let mut at = 0;
    for (worker, text) in texts.iter().enumerate() {
        match match_worker(output, at, worker, text.as_slice()) {
            Ok(to) => at = to,
            Err(place) => return Err(place),
        }
    }
    Ok(at)
}

/// The first place at which an output differs from the one that these workers' texts make, followed
/// by its own end, from `part` on. If one of the two is shorter, its end is such a place. It takes
/// no memory.
pub fn difference(output: &[u8], texts: &[ByteOut], part: usize) -> Option<usize>
    requires { part ≤ length output.now }
    ensures { result ≡ first_difference output.now
        (worker_texts 0 texts.now ++ drop part output.now) }
{
    let at = match match_workers(output, texts) {
        Ok(at) => at,
        Err(place) => return Some(place),
    };
    match match_piece(output, at, &output[part..]) {
        Ok(to) if to == output.len() => None,
        Ok(to) => Some(to),
        Err(place) => Some(place),
    }
}
