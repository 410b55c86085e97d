//! The shape of a cache, its limits, and what a call's moment is.

ghost use Rattle.std.specs.Prelude.{◌≡◌, ◌↔◌, IsTrue};
ghost use Rattle.apcu_model.specs.Conf.{IsGood, IsUsable, most_of, piece_of};
ghost use Rattle.apcu_model.specs.declared.conf.TheConstants.{USUAL_WORDS};

/// The most words of all segments together: 128 MB.
pub const MOST_WORDS: u32 = 16_777_216;

/// The most words of all segments together with which an engine can be made: 2 GB.
pub const MOST_USABLE_WORDS: u32 = 268_435_456;

/// The most slots of a cache.
pub const MOST_SLOTS: u32 = 1_048_576;

/// The most segments of a cache.
pub const MOST_SEGMENTS: u32 = 64;

/// The shape of a cache: how many words its segments have, how many of them are slots, how long a
/// row without a ttl of its own stays unused before it expires, and how many segments there are.
#[derive(Clone, Copy, Debug, PartialEq, Eq)]
pub struct Conf {
    /// All words of the segments (`apc.shm_size` in units of 8 bytes, times their number).
    pub words: u32,
    /// The words from 0 on that are heads of hash chains. Blocks begin after them.
    pub slots: u32,
    /// `apc.ttl` in seconds: a row without a ttl of its own is stale this long after its last use;
    /// 0 is never.
    pub ttl: u32,
    /// The number of segments (`apc.shm_segments`), which have equally many words. No block crosses
    /// a border between two of them.
    pub segments: u32,
}

/// What a call's moment is, PHP's `apc.use_request_time`.
#[derive(Clone, Copy, Debug, PartialEq, Eq)]
pub enum Clock {
    /// The second at which the call is made (`0`).
    Line,
    /// The second at which the call's request began (`1`).
    Request,
}

// The words of 32 MB.
const USUAL_WORDS: u32 = 4_194_304;

impl Conf {
    /// The default shape: one segment of 32 MB (PHP's `apc.shm_size`), 4,096 slots, and no ttl.
    pub fn usual() -> Conf
        ensures is { result
            ≡ record { words = USUAL_WORDS; slots = 4096; ttl = 0; segments = 1 } }
        ensures good { IsGood result }
    {
        Conf {
            words: USUAL_WORDS,
            slots: 4096,
            ttl: 0,
            segments: 1,
        }
    }

    /// Whether a cache of this shape can be made: `segments` is from 1 to 64, `words` is from 32 to
    /// 16,777,216 and an even number for each segment, `slots` is even and from 2 to 1,048,576, and
    /// at least 16 words of the first segment are left for blocks.
    pub fn good(&self) -> bool
        ensures { IsTrue result ↔ IsGood self.now }
    {
        self.segments >= 1
            && self.segments <= MOST_SEGMENTS
            && self.words % (2 * self.segments) == 0
            && self.words >= 32
            && self.words <= MOST_WORDS
            && self.slots % 2 == 0
            && self.slots >= 2
            && self.slots <= MOST_SLOTS
            && self.slots + 16 <= self.piece()
    }

    /// Whether an engine can make a cache of this shape: all that `good` requires, but `words` may
    /// be up to 268,435,456. A good shape is usable.
    pub fn usable(&self) -> bool
        ensures { IsTrue result ↔ IsUsable self.now }
    {
        let Conf {
            words,
            slots,
            ttl: _,
            segments,
        } = *self;
        segments >= 1
            && segments <= MOST_SEGMENTS
            && words % (2 * segments) == 0
            && words >= 32
            && words <= MOST_USABLE_WORDS
            && slots % 2 == 0
            && slots >= 2
            && slots <= MOST_SLOTS
            && slots + 16 <= self.piece()
    }

    /// The number of words of a segment.
    pub fn piece(&self) -> u32
        ensures { result ≡ piece_of self.now }
    {
        if self.segments == 0 {
            return 0;
        }
        self.words / self.segments
    }

    /// The number of words of the largest block that fits into the empty segments.
    pub fn most(&self) -> u32
        ensures { result ≡ most_of self.now }
    {
        if self.segments == 1 {
            return self.words.saturating_sub(self.slots);
        }
        self.piece()
    }
}
