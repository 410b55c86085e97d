//! Random requests of events.

ghost use Rattle.std.specs.Prelude.{◌<◌};

use crate::mark_requests::Act;

// The pseudo-random number after this one.
pub(crate) fn next(bits: u64) -> u64 {
    bits.wrapping_mul(6_364_136_223_846_793_005)
        .wrapping_add(1_442_695_040_888_963_407)
}

// Sixteen bits of the number, from this one on.
fn part(bits: u64, from: u32) -> u64
    ensures { result < 65536 }
{
    bits.wrapping_shr(from) % 65_536
}

// The request.
pub(crate) fn act_of(bits: u64) -> Act {
    let ttl = (part(bits, 48) % 6) as u32;
    let n = (part(bits, 30) % 4) as i64;
    match part(bits, 20) % 24 {
        0..=2 => Act::Put(n, ttl),
        3..=5 => Act::Text((part(bits, 30) % 1_500) as usize, ttl),
        6 => Act::Add(n),
        7..=10 => Act::Fetch,
        11 => Act::Exists,
        12 | 13 => Act::Delete,
        14 | 15 => Act::Inc(n, ttl),
        16 | 17 => Act::Cas(n, (part(bits, 40) % 4) as i64),
        18 | 19 => Act::Entry(n, ttl),
        20 => Act::KeyInfo,
        21 => Act::SmaInfo(true),
        22 => Act::Retire,
        _ => if part(bits, 24) % 8 == 0 {
            Act::Clear
        } else {
            Act::CacheInfo(true)
        },
    }
}
