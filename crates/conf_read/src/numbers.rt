//! The numbers that the values of options write.

ghost use Rattle.std.specs.Prelude.{◌≡◌, ◌<◌, ◌≤◌, ◌%◌, ◌^◌, IfSome};
ghost use Rattle.conf_read.specs.Numbers.{number_in, unit_of, bytes_in, words_in_size};

// The most bytes of a segment.
const MOST_BYTES: u64 = 134_217_728;

// The number that a text writes in at most this many digits, if it is not above another.
pub(crate) fn number_in(text: &[u8], most: usize, high: u64) -> Option<u64>
    ensures is { result ≡ number_in most high text.now }
    ensures low { IfSome result (λ n. n ≤ high) }
{
    if text.is_empty() || text.len() > most || text[0] == b'+' {
        return None;
    }
    let number = match str::from_utf8(text) {
        Ok(text) => text.parse::<u64>().ok()?,
        Err(_) => return None,
    };
    if number <= high { Some(number) } else { None }
}

// The bytes of the unit that a letter after a number names; 1 if it names none.
fn unit_of(letter: u8) -> u64
    ensures { result ≡ unit_of letter }
{
    match letter {
        b'K' | b'k' => 1024,
        b'M' | b'm' => 1_048_576,
        b'G' | b'g' => 1_073_741_824,
        _ => 1,
    }
}

// The bytes of a size.
fn bytes_in(text: &[u8]) -> Option<u64>
    ensures is { result ≡ bytes_in text.now }
    ensures few { IfSome result (λ bytes. bytes < 2 ^ 60) }
{
    let [digits @ .., last] = text else {
        return None;
    };
    let unit = unit_of(*last);
    if unit == 1 {
        number_in(text, 10, MOST_BYTES)
    } else {
        Some(number_in(digits, 10, MOST_BYTES)? * unit)
    }
}

// The words of a segment of this size.
pub(crate) fn words_in_size(text: &str) -> Option<u64>
    ensures is { result ≡ words_in_size text.now }
    ensures even { IfSome result (λ words. words % 2 ≡ 0) }
    ensures least { IfSome result (λ words. 32 ≤ words) }
    ensures most { IfSome result (λ words. words ≤ 16777216) }
{
    let bytes = bytes_in(text.as_bytes())?;
    if bytes % 16 == 0 && bytes >= 256 && bytes <= MOST_BYTES {
        Some(bytes / 8)
    } else {
        None
    }
}
