//! The tokens of the notation: marks, numbers, and byte strings. Reading them allocates no memory.

ghost use Rattle.std.specs.Prelude.{◌≡◌, ◌<◌, ◌≤◌, ◌^◌, length, IfOk};
ghost use Rattle.notation.specs.Marks.{Reads, found, mark_at, ends_number, number_len, number_at};
ghost use Rattle.notation.specs.Marks.{number_as, as_natural, as_truth, natural_at, quoted_at};
ghost use Rattle.notation.specs.Marks.{sized_at, string_at, integer_at, count_at};

use crate::fault::{Fault, Reason};
use php_graph::int_of_text;

// A fault at which these bytes are left.
pub(crate) fn fault_at(reason: Reason, bytes: &[u8]) -> Fault
    ensures { result ≡ record { reason = reason; left = length bytes.now } }
{
    Fault {
        reason,
        left: bytes.len(),
    }
}

// The bytes after the expected mark.
pub(crate) fn mark(due: u8, bytes: &[u8]) -> Result<&[u8], Fault>
    ensures read { Reads (λ rest. rest.now) result (mark_at due bytes.now) }
    ensures less { IfOk result (λ x. length x.now < length bytes.now) }
{
    match bytes {
        [] => Err(fault_at(Reason::End, bytes)),
        [b, rest @ ..] if *b == due => Ok(rest),
        _ => Err(fault_at(Reason::Mark, bytes)),
    }
}

// The number of digits and minus signs in front.
fn run_len(bytes: &[u8]) -> usize
    ensures length { result ≡ number_len bytes.now }
    ensures within { result ≤ length bytes.now }
{
    for (i, b) in bytes.iter().enumerate() {
        if ends_run(*b) {
            return i;
        }
    }
    bytes.len()
}

fn ends_run(b: u8) -> bool
    ensures { result ≡ ends_number b }
{
    !(b.is_ascii_digit() || b == b'-')
}

// A 64-bit integer.
#[tactic(auto, unfolding(crate::specs::Marks::number_at))]
pub(crate) fn number(bytes: &[u8]) -> Result<(i64, &[u8]), Fault>
    ensures read { Reads (λ x. (x.0, x.1.now)) result (number_at bytes.now) }
    ensures less { IfOk result (λ x. length x.1.now ≤ length bytes.now) }
{
    if bytes.is_empty() {
        return Err(fault_at(Reason::End, bytes));
    }
    let (run, rest) = bytes.split_at(run_len(bytes));
    match int_of_text(run) {
        Some(n) => Ok((n, rest)),
        None => Err(fault_at(Reason::Number, bytes)),
    }
}

// A length, a count or the number of a place.
pub(crate) fn natural(bytes: &[u8]) -> Result<(u32, &[u8]), Fault>
    ensures read { Reads (λ x. (x.0, x.1.now)) result (natural_at bytes.now) }
    ensures less { IfOk result (λ x. length x.1.now ≤ length bytes.now) }
{
    let (n, rest) = number(bytes)?;
    if n < 0 || n > 4_294_967_295 {
        return Err(fault_at(Reason::Number, bytes));
    }
    Ok((n as u32, rest))
}

// A boolean.
pub(crate) fn truth(bytes: &[u8]) -> Result<(bool, &[u8]), Fault>
    ensures read { Reads (λ x. (x.0, x.1.now)) result (number_as as_truth bytes.now) }
    ensures less { IfOk result (λ x. length x.1.now ≤ length bytes.now) }
{
    let (n, rest) = number(bytes)?;
    match n {
        0 => Ok((false, rest)),
        1 => Ok((true, rest)),
        _ => Err(fault_at(Reason::Number, bytes)),
    }
}

// `len` bytes followed by a quote. A fault is at the number that is their length.
fn quoted<'a>(len: u32, number: &[u8], bytes: &'a [u8]) -> Result<(&'a [u8], &'a [u8]), Fault>
    ensures read { Reads (λ x. (x.0.now, x.1.now)) result (quoted_at len number.now bytes.now) }
    ensures length { IfOk result (λ x. length x.0.now ≡ len) }
    ensures less { IfOk result (λ x. length x.1.now < length bytes.now) }
{
    let len = len as usize;
    if len < bytes.len() && bytes[len] == b'"' {
        Ok((&bytes[..len], &bytes[len + 1..]))
    } else {
        Err(fault_at(Reason::Length, number))
    }
}

// A byte string in quotes, with its length before it.
#[tactic(auto, unfolding(crate::specs::Marks::sized_at))]
pub(crate) fn sized(bytes: &[u8]) -> Result<(&[u8], &[u8]), Fault>
    ensures read { Reads (λ x. (x.0.now, x.1.now)) result (sized_at bytes.now) }
    ensures short { IfOk result (λ x. length x.0.now < 2 ^ 32) }
    ensures less { IfOk result (λ x. length x.1.now < length bytes.now) }
{
    let number = mark(b':', bytes)?;
    let (len, rest) = natural(number)?;
    let rest = mark(b':', rest)?;
    let rest = mark(b'"', rest)?;
    quoted(len, number, rest)
}

// What follows the letter of a string.
#[tactic(auto, unfolding(crate::specs::Marks::string_at))]
pub(crate) fn string(bytes: &[u8]) -> Result<(&[u8], &[u8]), Fault>
    ensures read { Reads (λ x. (x.0.now, x.1.now)) result (string_at bytes.now) }
    ensures short { IfOk result (λ x. length x.0.now < 2 ^ 32) }
    ensures less { IfOk result (λ x. length x.1.now < length bytes.now) }
{
    let (text, rest) = sized(bytes)?;
    let rest = mark(b';', rest)?;
    Ok((text, rest))
}

// What follows the letter of an integer.
#[tactic(auto, unfolding(crate::specs::Marks::integer_at))]
pub(crate) fn integer(bytes: &[u8]) -> Result<(i64, &[u8]), Fault>
    ensures read { Reads (λ x. (x.0, x.1.now)) result (integer_at bytes.now) }
    ensures less { IfOk result (λ x. length x.1.now < length bytes.now) }
{
    let rest = mark(b':', bytes)?;
    let (n, rest) = number(rest)?;
    let rest = mark(b';', rest)?;
    Ok((n, rest))
}

// The number of members, and what opens them.
#[tactic(auto, unfolding(crate::specs::Marks::count_at))]
pub(crate) fn count(bytes: &[u8]) -> Result<(u32, &[u8]), Fault>
    ensures read { Reads (λ x. (x.0, x.1.now)) result (count_at bytes.now) }
    ensures less { IfOk result (λ x. length x.1.now < length bytes.now) }
{
    let rest = mark(b':', bytes)?;
    let (n, rest) = natural(rest)?;
    let rest = mark(b':', rest)?;
    let rest = mark(b'{', rest)?;
    Ok((n, rest))
}
