//! The words of an entry's head.

ghost use Rattle.std.specs.Prelude.{◌≡◌};
ghost use Rattle.seg_words.specs.Layout.{words_in};

/// The words of an entry's head. The key follows, eight bytes a word, and then the image of the
/// value.
pub const HEAD_WORDS: u32 = 12;

/// The word of an entry's head that holds the length of its key, in bytes.
pub const KEY_LENGTH: u32 = 2;

/// The word of an entry's head that holds the length of its value's image, in words.
pub const IMAGE_LENGTH: u32 = 3;

/// The word of an entry's head that holds its pin count: how many workers are copying from the
/// block.
pub const PIN_COUNT: u32 = 11;

/// The number of words for this many bytes, eight bytes a word.
pub fn words_in(bytes: u32) -> u32
    ensures { result ≡ words_in bytes }
{
    bytes / 8 + (bytes % 8 + 7) / 8
}
