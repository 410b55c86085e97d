//! Names and keys of pools, and the keys and patterns of the cache that are made of them.

use simple_pool::{good_key, good_name, pool_key, pool_pattern};
use std::test::Fail;

const LONGEST: &[u8] = b"0123456789ABCDEFabcdef0123456789ABCDEFabcdef0123456789ABCDEF_.__";

#[test]
fn forms(rt: HostRuntime) {
    for name in [b"p".as_slice(), b"A.z_09", LONGEST] {
        assert!(rt; good_name(name));
    }
    for name in [b"".as_slice(), b"p-q", b"{", b"p q", b"\xC3\xA9"] {
        assert!(rt; !good_name(name));
    }
    for key in [b"a".as_slice(), b" ", b"\0", b"\xFF", b"a-b.c", LONGEST] {
        assert!(rt; good_key(key));
    }
    for key in [
        b"".as_slice(),
        b"{",
        b"}",
        b"(",
        b")",
        b"/",
        b"\\",
        b"@",
        b"a:b",
    ] {
        assert!(rt; !good_key(key));
    }
}

#[test]
fn a_name_too_long(rt: HostRuntime) -> Result<(), Fail> {
    let mut name = Vec::new(rt.alloc());
    name.extend_from_slice(LONGEST)?;
    name.push(b'0')?;
    assert!(rt; !good_name(&name));
    Ok(())
}

#[test]
fn keys_of_the_cache(rt: HostRuntime) -> Result<(), Fail> {
    for (pool, key, own, text) in [
        (
            b"p".as_slice(),
            b"k".as_slice(),
            b"{p}k".as_slice(),
            b"\\{p\\}".as_slice(),
        ),
        (b"p.q", b"k", b"{p.q}k", b"\\{p\\.q\\}"),
        (b"a_1", b"\xFF", b"{a_1}\xFF", b"\\{a_1\\}"),
    ] {
        assert!(rt; good_name(pool));
        assert!(rt; good_key(key));
        assert_eq!(rt; pool_key(rt.alloc(), pool, key)?.as_slice(), own);
        let pattern = pool_pattern(rt.alloc(), pool)?;
        assert_eq!(rt; pattern.text.as_slice(), text);
        assert!(rt; !pattern.fold);
    }
    Ok(())
}
