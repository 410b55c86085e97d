//! The stores of a loader.

use crate::asked::is_value;
use crate::bundles::Rows;
use preload_set::{loader, read_bundle};
use script_read::{Call, Script};
use std::alloc::Global;
use std::process::Abort;
use std::test::Fail;

// Each row is stored without time limit, at the moment 0, and replaces what its key had.
fn expect_stores<R: Abort>(rt: &R, alloc: Global, script: &Script, rows: Rows) -> Result<(), Fail> {
    assert_eq!(rt; script.len() as usize, rows.len());
    for i in 0..script.len() {
        assert!(rt; (i as usize) < rows.len());
        let (expected, text) = rows[i as usize];
        let step = script.at(i);
        assert_eq!(rt; step.t, 0);
        assert_eq!(rt; step.start, 0);
        match &step.call {
            Call::StoreOne {
                key,
                value,
                ttl,
                exclusive,
            } => {
                assert!(rt; key.as_slice() == expected);
                assert!(rt; is_value(alloc, text, value)?);
                assert_eq!(rt; *ttl, 0);
                assert!(rt; !*exclusive);
            }
            _ => assert!(rt; false),
        }
    }
    Ok(())
}

#[test]
fn steps_of_loaders(rt: HostRuntime) -> Result<(), Fail> {
    const CASES: &[(&[u8], Rows)] = &[
        (b"", &[]),
        (b"s:1:\"a\"; i:5;\n", &[(b"a", b"i:5;")]),
        (
            b"s:1:\"a\"; i:1;\ns:0:\"\"; a:1:{i:0;R:1;}\ns:1:\"a\"; s:1:\"x\";\n",
            &[
                (b"a", b"i:1;"),
                (b"", b"a:1:{i:0;R:1;}"),
                (b"a", b"s:1:\"x\";"),
            ],
        ),
    ];
    for (bytes, rows) in CASES {
        assert!(rt; bytes.len() < 1000);
        let bundle = read_bundle(rt.alloc(), bytes)?;
        expect_stores(&rt, rt.alloc(), &loader(rt.alloc(), &bundle)?, rows)?;
    }
    Ok(())
}
