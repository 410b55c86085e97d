//! What examples/RUST.md shows: one thread stores a value and finds it.

ghost use Rattle.std.specs.Prelude.{◌<◌, ◌^◌, length};

use apcu_model::{Conf, integer};
use cache_core::{Core, Look, Scalar};
use max_tree::MaxRow;
use seg_words::VecWords;
use std::alloc::{AllocError, Global};
use std::test::Fail;

// What is found under a key a second after a number was stored there for a minute.
fn stored(alloc: Global, key: &[u8], number: i64) -> Result<Look, AllocError>
    requires short { length key.now < 2 ^ 32 }
{
    let conf = Conf::usual();
    let mut words = VecWords::new(alloc, conf.words)?;
    let gaps = MaxRow::new(alloc, conf.words as usize / 4)?;
    let mut cache = Core::format(&mut words, &conf, gaps);
    let value = integer(alloc, number);
    cache.store(&mut words, key, &value, 60, false, 100);
    let found = cache.look(&mut words, key, 101);
    Ok(found)
}

#[test]
fn finds_what_was_stored(rt: HostRuntime) -> Result<(), Fail> {
    let found = stored(rt.alloc(), b"visits", 5)?;
    assert_eq!(&rt; found, Look::Scalar(Scalar::Int(5)));
    Ok(())
}
