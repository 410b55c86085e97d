//! What is left of a cache after all its workers have ended.

ghost use Rattle.std.specs.Prelude.{◌≡◌, ◌≤◌, [], ◌∷◌, IfSome};
ghost use Rattle.seg_words.specs.contracts.vec_words.VecWordsWordsIn.TheImpl as held;
ghost use Rattle.cache_core.specs.CoreCache.{CacheStands};

use crate::meeting::{CONF, letters, two_passes};
use crate::steps::{put, remove};
use apcu_model::Counts;
use cache_core::Core;
use notation::ByteOut;
use php_graph::Graph;
use pin_table::TableName;
use seg_report::map_text;
use seg_words::VecWords;
use shared_cache::{Closed, Fresh, Pinned, open_cache};
use std::alloc::Global;
use std::marker::Brand;
use std::sync::Wait;
use std::test::Fail;

// The first worker stores a text, and the second one another. While the second one copies the first
// text, the first one deletes it; then both end. No store comes later, so the row stays removed.
fn plays<N: TableName, R: Wait>(
    rt: &R,
    alloc: Global,
    fresh: Fresh,
    text: &Graph,
    other: &Graph,
) -> Option<(Closed, Core, VecWords)>
    requires table { N.table ≡ fresh.table }
    requires conf { N.conf ≡ fresh.conf }
    requires budgets { N.budgets ≡ fresh.budgets }
    requires two { fresh.budgets ≡ 3 ∷ 3 ∷ [] }
    ensures stand { IfSome result (λ left. CacheStands held.ghosts left.1 left.2) }
{
    let (shared, mut passes, mut ended) = fresh.name::<N>();
    let (first, second) = two_passes::<N>(&mut passes)?;
    let (first, _stored) = put(rt, &shared, first, b"a", text, false);
    let (second, _stored) = put(rt, &shared, second, b"b", other, false);
    let Pinned::Hit(copying) = shared.pin(rt, second, b"a", 6) else {
        return None;
    };
    let (first, _gone) = remove(rt, &shared, first, b"a");
    let (second, _copied) = shared.copy_out(alloc, copying);
    ended.push(shared.retire(rt, first));
    ended.push(shared.retire(rt, second));
    Some(shared.close_all(rt, ended))
}

// Its 160 words are still taken.
const MAP: &[u8] = b"map\nremoved 32 160 1 s:1:\"a\";\nrow 192 16 2 s:1:\"b\";\nfree 208 304\n\
    free words 304\nlargest 304\nruns 1\nfits 16 19\nfits 32 9\nfits 64 4\nfits 128 2\nfits 256 1\n";

#[test]
fn leaves_the_cache_that_was_played(rt: HostRuntime) -> Result<(), Fail> {
    let alloc = rt.alloc();
    let text = letters(&rt, alloc, 1168)?;
    let other = letters(&rt, alloc, 1)?;
    let Ok(fresh) = open_cache(&rt, alloc, &CONF, &[3, 3]) else {
        return Err(Fail::new("open_cache"));
    };
    let Some((closed, mut core, mut words)) = plays::<Brand, _>(&rt, alloc, fresh, &text, &other)
    else {
        return Err(Fail::new("two passes, and a text"));
    };
    let counts = Counts {
        hits: 1,
        misses: 0,
        inserts: 2,
        expunges: 0,
        entries: 1,
    };
    assert_eq!(rt; closed.counts, counts);
    assert_eq!(rt; core.counts(), counts);
    assert_eq!(rt; closed.journal.len(), 6);
    let mut out = ByteOut::new(alloc);
    map_text(&mut core, &mut words, &mut out)?;
    assert!(rt; out.as_slice() == MAP);
    Ok(())
}
