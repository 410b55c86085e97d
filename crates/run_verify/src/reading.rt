//! Reading the journal part of an output: its begin, its lines, and the marks that they spell.

ghost use Rattle.std.specs.Prelude.{◌≡◌, ℕ, ◌+◌, ◌-◌, ◌<◌, ◌≤◌, ◌&&◌, ◌++◌, ◌∷◌, length, take};
ghost use Rattle.std.specs.Prelude.{drop, codes, None, IfSome, IfOk, IfErr, IsTrue};
ghost use Rattle.std.specs.Option.{option_map};
ghost use Rattle.std.specs.Str.{bytes_eq};
ghost use Rattle.reply_text.specs.Output.{mark_line, mask_text};
ghost use Rattle.apcu_model.specs.declared.limits.TheConstants.{MOST_WORKERS};
ghost use Rattle.run_verify.specs.Verdicts.{journal_part, lines_of, mark_of_line, numbers_from};
ghost use Rattle.run_verify.specs.Verdicts.{digit_more, worker_more, number_more};
ghost use Rattle.run_verify.specs.OutputLines.{begins_line};
ghost use Rattle.run_verify.specs.TextPieces.{HasPiece, DiffersAt};

use crate::comparing::{match_both, match_piece};
use apcu_model::{MOST_WORKERS, Mark};
use itoa::Buffer;

// Whether a line begins at this place.
fn begins_line(output: &[u8], at: usize) -> bool
    requires { at ≤ length output.now }
    ensures { result ≡ begins_line output.now at }
{
    at == 0 || output[at - 1] == b'\n'
}

// Whether the line `journal` begins at this place.
fn begins_journal(output: &[u8], at: usize) -> bool
    requires { at ≤ length output.now }
    ensures is { result ≡ (begins_line output.now at
        && bytes_eq (codes "journal\n") (take 8 (drop at output.now))) }
    ensures within { IsTrue result → at + 8 ≤ length output.now }
{
    begins_line(output, at) && output[at..].starts_with(b"journal\n")
}

/// The place at which the journal part of an output begins: after its last line `journal`, if there
/// is one. The output is read once, from its end.
pub fn journal_at(output: &[u8]) -> Option<usize>
    ensures part { option_map (λ p. drop p output.now) result ≡ journal_part output.now }
    ensures within { IfSome result (λ p. p ≤ length output.now) }
{
    let mut at = output.len();
    'back: while at > 0 {
        at -= 1;
        if begins_journal(output, at) {
            return Some(at + 8);
        }
    }
    None
}

/// The end of the line that begins at this place, after its line feed; the last one may lack it.
pub fn line_end(output: &[u8], at: usize) -> usize
    requires { at < length output.now }
    ensures past { at < result }
    ensures within { result ≤ length output.now }
    ensures line { lines_of (drop at output.now)
        ≡ take (result - at) (drop at output.now) ∷ lines_of (drop result output.now) }
{
    let mut end = at;
    'bytes: while end < output.len() {
        if output[end] == b'\n' {
            return end + 1;
        }
        end += 1;
    }
    end
}

// A number with one more digit.
fn digit_more(n: u32, byte: u8) -> u32
    requires { n ≤ MOST_WORKERS }
    ensures { result ≡ digit_more n byte }
{
    (n * 10 + u32::from(byte.saturating_sub(48))).min(MOST_WORKERS)
}

// A mask with one more worker, if it is above those in the mask.
fn worker_more(mask: u64, worker: u32) -> u64
    ensures { result ≡ worker_more mask worker }
{
    if worker < MOST_WORKERS && mask < 1 << worker {
        mask + (1 << worker)
    } else {
        mask
    }
}

// A mark with one more number of its line.
fn number_more(mark: Option<Mark>, n: u32) -> Mark
    ensures { Some result ≡ number_more mark n }
{
    match mark {
        None => Mark { worker: n, mask: 0 },
        Some(mark) => Mark {
            worker: mark.worker,
            mask: worker_more(mark.mask, n),
        },
    }
}

// The mark that the numbers of a line make.
fn numbers_of(line: &[u8]) -> Option<Mark>
    ensures { result ≡ numbers_from 0 None line.now }
{
    let mut number = 0;
    let mut mark = None;
    for byte in line {
        if *byte == b' ' || *byte == b'\n' {
            mark = Some(number_more(mark, number));
            number = 0;
        } else {
            number = digit_more(number, *byte);
        }
    }
    mark
}

// Whether the workers of a mask are there as they are printed.
fn match_mask(line: &[u8], from: usize, mask: u64) -> Result<usize, usize>
    requires { from ≤ length line.now }
    ensures has { IfOk result (λ to. HasPiece line.now from (mask_text mask 64) to) }
    ensures differs { IfErr result (λ place. DiffersAt line.now from (mask_text mask 64) place) }
{
    // The mask of most events is empty.
    if mask == 0 {
        return Ok(from);
    }
    let mut at = from;
    for worker in 0..MOST_WORKERS {
        if (mask >> worker) % 2 == 1 {
            let mut digits = Buffer::new();
            match match_both(line, at, b" ", digits.format(worker).as_bytes()) {
                Ok(to) => at = to,
                Err(place) => return Err(place),
            }
        }
    }
    Ok(at)
}

// Whether a mark is there as it is printed.
fn match_mark(line: &[u8], mark: Mark) -> Result<usize, usize>
    ensures has { IfOk result (λ to. HasPiece line.now 0 (mark_line mark) to) }
    ensures differs { IfErr result (λ place. DiffersAt line.now 0 (mark_line mark) place) }
{
    let mut digits = Buffer::new();
    let numbered = match match_piece(line, 0, digits.format(mark.worker).as_bytes()) {
        Ok(to) => to,
        Err(place) => return Err(place),
    };
    let masked = match match_mask(line, numbered, mark.mask) {
        Ok(to) => to,
        Err(place) => return Err(place),
    };
    match_piece(line, masked, b"\n")
}

// Whether the line is the one of this mark.
fn is_line_of(line: &[u8], mark: Mark) -> bool
    ensures { result ≡ bytes_eq (mark_line mark) line.now }
{
    match match_mark(line, mark) {
        Ok(to) => to == line.len(),
        Err(_) => false,
    }
}

/// The mark that a line spells, if it spells one: the line is the one that a journal prints, with
/// its line feed.
pub fn read_mark(line: &[u8]) -> Option<Mark>
    ensures { result ≡ mark_of_line line.now }
{
    match numbers_of(line) {
        Some(mark) if mark.worker < MOST_WORKERS && is_line_of(line, mark) => Some(mark),
        _ => None,
    }
}
