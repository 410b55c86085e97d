//! Random requests.

ghost use Rattle.std.specs.Prelude.{◌<◌};

use crate::asking::Act;

// The key of this number.
pub(crate) const fn key(name: u8) -> [u8; 3] {
    [b'k', b'0' + name / 10 % 10, b'0' + name % 10]
}

// A moment, and a pseudo-random number.
#[derive(Clone, Copy)]
pub(crate) struct Draw {
    pub(crate) t: u64,
    pub(crate) bits: u64,
}

impl Draw {
    pub(crate) const fn new(seed: u64) -> Draw {
        Draw { t: 100, bits: seed }
    }

    // The next one, at most a second later.
    pub(crate) fn next(self) -> Draw {
        let bits = self
            .bits
            .wrapping_mul(6_364_136_223_846_793_005)
            .wrapping_add(1_442_695_040_888_963_407);
        let t = self.t.wrapping_add((bits >> 60) % 2);
        Draw { t, bits }
    }

    // The number of one of forty keys.
    pub(crate) fn name(self) -> u8 {
        ((self.bits >> 33) % 40) as u8
    }

    // Sixteen bits from this one on.
    fn part(self, from: u32) -> u64
        ensures { result < 65536 }
    {
        self.bits.wrapping_shr(from) % 65_536
    }

    // A request of the cache's own.
    pub(crate) fn act(self) -> Act {
        let ttl = (self.part(48) % 6) as u32;
        match self.part(20) % 16 {
            0..=2 => Act::Put(self.part(30) as i64, ttl),
            3..=5 => Act::Text((self.part(30) % 1_500) as usize, ttl),
            6 => Act::Add(self.part(30) as i64),
            7..=10 => Act::Fetch,
            11 | 12 => Act::Exists,
            13 | 14 => Act::Delete,
            _ => if self.part(24) % 8 == 0 {
                Act::Clear
            } else {
                Act::Fetch
            },
        }
    }

    // And one on numbers so small that they collide.
    pub(crate) fn count(self) -> Act {
        let small = (self.part(30) % 4) as i64;
        match self.part(20) % 16 {
            0..=3 => Act::Put(small, (self.part(48) % 6) as u32),
            4..=7 => Act::Inc(small, (self.part(48) % 6) as u32),
            8 | 9 => Act::Cas(small, (self.part(40) % 4) as i64),
            _ => self.act(),
        }
    }
}
