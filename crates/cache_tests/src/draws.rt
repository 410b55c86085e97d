//! Random calls.

use crate::calls::{Act, Call, DELETE, FETCH, put};
use crate::values::{Inner, Value};

// Which calls are drawn.
#[derive(Clone, Copy)]
pub(crate) enum Kinds {
    // those of the cache alone, under forty keys
    Core,
    // counters and entries too, under twenty keys and four of entries alone
    All,
}

// A moment, and a pseudo-random number.
#[derive(Clone, Copy)]
pub(crate) struct Draw {
    pub(crate) t: u64,
    pub(crate) bits: u64,
}

impl Draw {
    pub(crate) const fn new(seed: u64) -> Draw {
        Draw { t: 100, bits: seed }
    }

    // The next one, at most a second later.
    pub(crate) fn next(self) -> Draw {
        let bits = self
            .bits
            .wrapping_mul(6_364_136_223_846_793_005)
            .wrapping_add(1_442_695_040_888_963_407);
        Draw {
            t: self.t.wrapping_add((bits >> 60) % 2),
            bits,
        }
    }

    // The number of a key.
    pub(crate) fn name(self, kinds: Kinds) -> u8 {
        let keys = match kinds {
            Kinds::Core => 40,
            Kinds::All => 20,
        };
        ((self.bits >> 33) % keys) as u8
    }

    // A call under the key of this number.
    pub(crate) fn call(self, kinds: Kinds, name: u8) -> Call {
        match kinds {
            Kinds::Core => Call::Core(self.act()),
            Kinds::All => if (self.bits >> 16) % 4 == 0 {
                self.entry(name)
            } else {
                self.count()
            },
        }
    }

    pub(crate) fn act(self) -> Act {
        let bits = self.bits;
        match (bits >> 20) % 16 {
            0..=6 => {
                let value = if (bits >> 24) % 2 == 0 {
                    Value::Int((bits >> 30) as i64)
                } else {
                    Value::Text(((bits >> 30) % 1500) as usize)
                };
                Act::Store(value, ((bits >> 50) % 6) as u32, (bits >> 56) % 4 == 0)
            }
            7..=10 => Act::Fetch,
            11 | 12 => Act::Exists,
            13 | 14 => Act::Delete,
            _ => if (bits >> 24) % 8 == 0 {
                Act::Clear
            } else {
                Act::Fetch
            },
        }
    }

    // A call on numbers so small that they collide.
    fn count(self) -> Call {
        let bits = self.bits;
        let ttl = ((bits >> 50) % 6) as u32;
        let small = ((bits >> 30) % 4) as i64;
        match (bits >> 20) % 16 {
            0 | 1 => put(Value::Int(small), ttl),
            2 | 3 => put(Value::Text(((bits >> 30) % 1500) as usize), ttl),
            4 | 5 => FETCH,
            6 => DELETE,
            7..=11 => Call::Inc(small, ttl),
            _ => Call::Cas(small, ((bits >> 40) % 4) as i64),
        }
    }

    // An entry of a key with this number around others of other numbers.
    fn entry(self, name: u8) -> Call {
        let bits = self.bits;
        let second = (name % 20 + 1 + ((bits >> 8) % 19) as u8) % 20;
        let third = 20 + ((bits >> 13) % 4) as u8;
        let inner = Inner {
            second: if (bits >> 40) % 3 > 0 {
                Some(second)
            } else {
                None
            },
            third: if (bits >> 42) % 3 > 0 {
                Some(third)
            } else {
                None
            },
            ttl: ((bits >> 50) % 6) as u32,
        };
        let value = if (bits >> 44) % 2 == 0 {
            Value::Int(((bits >> 30) % 4) as i64)
        } else {
            Value::Text(((bits >> 24) % 5_000) as usize)
        };
        Call::Entry(inner, value)
    }
}
