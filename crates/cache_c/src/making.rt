//! Making a cache.

ghost use Rattle.std.specs.Prelude.{◌≡◌, IfOk, IfErr};
ghost use Rattle.apcu_model.specs.Conf.{IsUsable};
ghost use Rattle.cache_c.specs.Made.{conf_of, IsEmpty, IsRefusal};

use crate::cache::Cache;
use crate::seat_words::SeatWords;
use apcu_model::Conf;
use cache_core::Core;
use late_words::LateWords;
use max_tree::MaxRow;
use std::alloc::{AllocError, Global};

/// The shape of a cache, as in `Conf` of `apcu_model`.
#[repr(C)]
#[derive(Clone, Copy)]
pub struct Shape {
    /// The number of words of all segments.
    pub words: u32,
    /// The number of slots among them.
    pub slots: u32,
    /// In seconds; 0 is never.
    pub ttl: u32,
    /// The number of segments.
    pub segments: u32,
}

/// The cache was made.
pub const MADE: u32 = 0;
/// No cache has this shape.
pub const BAD_SHAPE: u32 = 1;
/// There was not enough memory.
pub const NO_ROOM: u32 = 2;

// An empty cache of a usable shape.
fn empty(alloc: Global, conf: &Conf) -> Result<Cache, AllocError>
    requires usable { IsUsable conf.now }
    ensures { IfOk result (λ cache. IsEmpty conf.now cache) }
{
    let mut late = LateWords::new(alloc, conf.words)?;
    let gaps = MaxRow::new(alloc, (conf.words as usize).div_ceil(4))?;
    let core = Core::format(&mut late, conf, gaps);
    let words = SeatWords::of(late);
    Ok(Cache { core, words, alloc })
}

// An empty cache of this shape, or why there is none.
pub(crate) fn made(alloc: Global, shape: &Shape) -> Result<Cache, u32>
    ensures made { IfOk result (λ cache. IsEmpty (conf_of shape.now) cache) }
    ensures none { IfErr result (λ why. IsRefusal shape.now why) }
{
    let conf = Conf {
        words: shape.words,
        slots: shape.slots,
        ttl: shape.ttl,
        segments: shape.segments,
    };
    if !conf.usable() {
        return Err(BAD_SHAPE);
    }
    match empty(alloc, &conf) {
        Ok(cache) => Ok(cache),
        Err(_) => Err(NO_ROOM),
    }
}
