//! The requests of calls on pools.

use apcu_model::Request;
use php_graph::Bytes;
use simple_pool::{PoolAsk, PoolCall, good_key, good_name, request};
use std::test::Fail;

#[test]
fn a_look(rt: HostRuntime) -> Result<(), Fail> {
    let pool = Bytes::of(rt.alloc(), b"p")?;
    let key = Bytes::of(rt.alloc(), b"a")?;
    assert!(rt; good_name(pool.as_slice()));
    assert!(rt; good_key(key.as_slice()));
    let ask = PoolAsk::Has(key);
    let call = PoolCall { pool, ask };
    assert_eq!(rt; call.ask.events(64), 1);
    assert!(rt; call.pattern(rt.alloc())?.is_none());
    match request(rt.alloc(), &call, 0)? {
        Request::Exists(key) => assert_eq!(rt; key.as_slice(), b"{p}a".as_slice()),
        _ => assert!(rt; false),
    }
    Ok(())
}

#[test]
fn a_step_of_clearing(rt: HostRuntime) -> Result<(), Fail> {
    let pool = Bytes::of(rt.alloc(), b"p.q")?;
    assert!(rt; good_name(pool.as_slice()));
    let ask = PoolAsk::Clear;
    let call = PoolCall { pool, ask };
    assert_eq!(rt; call.ask.events(64), 64);
    assert!(rt; call.pattern(rt.alloc())?.is_some());
    match request(rt.alloc(), &call, 3)? {
        Request::ChunkDelete { search, from, size } => {
            assert!(rt; from == 3 && size == 100);
            match search {
                Some(pattern) => {
                    assert_eq!(rt; pattern.text.as_slice(), b"\\{p\\.q\\}".as_slice());
                    assert!(rt; !pattern.fold);
                }
                None => assert!(rt; false),
            }
        }
        _other => assert!(rt; false),
    }
    Ok(())
}
