//! The decimal text of an integer, and PHP's string hash.

ghost use Rattle.std.specs.Prelude.{◌≡◌, ◌⊎◌, ◌<◌, ◌^◌, List, ℕ, ℤ, true, false, Some, MatchOption};
ghost use Rattle.std.specs.Prelude.{FitsSigned};
ghost use Rattle.std.specs.Char.{is_ascii_digit};
ghost use Rattle.std.specs.List.{list_all};
ghost use Rattle.std.specs.Int.{w64};
ghost use Rattle.std.specs.Fmt.{signed_decimal};
ghost use Rattle.php_graph.specs.Graph.{is_class, is_class_byte};
ghost use Rattle.php_graph.specs.Numbers.{int_of_text, hash_of, hash_step, is_canonical};
ghost use Rattle.php_graph.specs.Numbers.{digits_after, natural_of, negative_of};

const MINUS: u8 = b'-';
// If a digit follows a number above this one, the number is above 2^63.
const LARGE: u64 = 1 << 60;

/// The initial value of PHP's string hash.
pub const HASH_START: u64 = 5381;

/// The highest bit of a word. PHP's string hash has it set.
pub const TOP_BIT: u64 = 1 << 63;

// Whether these are digits, at least one, with no zero before others.
fn is_canonical(digits: &[u8]) -> bool
    ensures { result ≡ is_canonical digits.now }
{
    match digits {
        [] => false,
        [first, rest @ ..] => are_digits(digits) && (*first != b'0' || rest.is_empty()),
    }
}

fn are_digits(digits: &[u8]) -> bool
    ensures { result ≡ list_all is_ascii_digit digits.now }
{
    digits.iter().all(|digit| digit.is_ascii_digit())
}

// The number that canonical digits write. There may be none if it is above 2^63.
fn small_number(digits: &[u8]) -> Option<u64>
    ensures { MatchOption result
        ((is_canonical digits.now ≡ false) ⊎ (2 ^ 63 < digits_after 0 digits.now))
        (λ n. (is_canonical digits.now ≡ true) × (n ≡ digits_after 0 digits.now)) }
{
    if !is_canonical(digits) {
        return None;
    }
    let mut number = 0u64;
    for digit in digits {
        if number > LARGE {
            return None;
        }
        number = 10 * number + u64::from(*digit - b'0');
    }
    Some(number)
}

fn natural_of(digits: &[u8]) -> Option<i64>
    ensures { result ≡ natural_of digits.now }
{
    let number = small_number(digits)?;
    if number < TOP_BIT {
        Some(number as i64)
    } else {
        None
    }
}

fn negative_of(digits: &[u8]) -> Option<i64>
    ensures { result ≡ negative_of digits.now }
{
    let number = small_number(digits)?;
    if number == 0 || number > TOP_BIT {
        return None;
    }
    Some(-((number - 1) as i64) - 1)
}

/// The integer whose canonical decimal the text is, as PHP takes an array's string key for an
/// integer: digits without a leading zero, `-` before a number below 0, `0` alone, in the range of
/// `i64`. No other text gives one.
#[tactic(auto, unfolding(crate::specs::Numbers::int_of_text))]
pub fn int_of_text(text: &[u8]) -> Option<i64>
    ensures { result ≡ int_of_text text.now }
{
    match text {
        [] => None,
        [first, digits @ ..] => {
            if *first == MINUS {
                negative_of(digits)
            } else {
                natural_of(text)
            }
        }
    }
}

/// A text gives an integer exactly if it is what the integer is written as.
pub fn integer_texts()
    ensures written { (text : List ℕ) (n : ℤ) → int_of_text text ≡ Some n
        → (text ≡ signed_decimal n) × FitsSigned w64 n }
    ensures read { (n : ℤ) → FitsSigned w64 n → int_of_text (signed_decimal n) ≡ Some n }
{}

// Whether a class may have this name: at least one byte, each a digit, a letter, `_`, `\\` or from
// 0x7F on.
pub(crate) fn is_class(name: &[u8]) -> bool
    ensures { result ≡ is_class name.now }
{
    !name.is_empty() && are_class_bytes(name)
}

fn are_class_bytes(name: &[u8]) -> bool
    ensures { result ≡ list_all is_class_byte name.now }
{
    name.iter().all(|byte| is_class_byte(*byte))
}

fn is_class_byte(byte: u8) -> bool
    ensures { result ≡ is_class_byte byte }
{
    match byte {
        b'0'..=b'9' | b'A'..=b'Z' | b'a'..=b'z' | b'_' | b'\\' | 0x7F..=0xFF => true,
        _ => false,
    }
}

/// One step of PHP's string hash: `hash * 33 + byte`, modulo 2^64.
pub fn hash_step(hash: u64, byte: u8) -> u64
    ensures { result ≡ hash_step hash byte }
{
    hash.wrapping_mul(33).wrapping_add(u64::from(byte))
}

/// PHP's string hash, which begins with 5381, takes `hash * 33 + byte` for each byte, and has its
/// top bit set. PHP's source calls it DJBX33A (`zend_inline_hash_func`).
#[tactic(auto, unfolding(crate::specs::Numbers::hash_of))]
pub fn hash_of(key: &[u8]) -> u64
    ensures { result ≡ hash_of key.now }
{
    let mut hash = HASH_START;
    for byte in key {
        hash = hash_step(hash, *byte);
    }
    hash | TOP_BIT
}
