//! Bundles that are read.

use crate::asked::is_value;
use preload_set::{Bundle, read_bundle, read_front};
use std::alloc::Global;
use std::process::Abort;
use std::test::Fail;

// Keys, and the texts of their values.
pub(crate) type Rows = &'static [(&'static [u8], &'static [u8])];

fn expect_rows<R: Abort>(rt: &R, alloc: Global, bundle: &Bundle, rows: Rows) -> Result<(), Fail> {
    assert_eq!(rt; bundle.len() as usize, rows.len());
    assert_eq!(rt; bundle.is_empty(), rows.is_empty());
    for i in 0..bundle.len() {
        assert!(rt; (i as usize) < rows.len());
        let (key, text) = rows[i as usize];
        assert!(rt; bundle.key(i) == key);
        assert!(rt; is_value(alloc, text, bundle.value(i))?);
    }
    Ok(())
}

#[test]
fn bundles(rt: HostRuntime) -> Result<(), Fail> {
    const CASES: &[(&[u8], Rows)] = &[
        (b"", &[]),
        (b"s:1:\"a\"; i:5;\n", &[(b"a", b"i:5;")]),
        (
            b"s:1:\"a\"; i:1;\ns:1:\"a\"; i:2;\n",
            &[(b"a", b"i:1;"), (b"a", b"i:2;")],
        ),
        (
            b"s:0:\"\"; N;\ns:3:\"a\n \"; b:1;\ns:1:\"5\"; i:-7;\ns:1:\"x\"; s:2:\"\n;\";\n",
            &[
                (b"", b"N;"),
                (b"a\n ", b"b:1;"),
                (b"5", b"i:-7;"),
                (b"x", b"s:2:\"\n;\";"),
            ],
        ),
        (
            b"s:1:\"a\"; a:2:{i:0;i:1;s:1:\"k\";a:1:{i:0;R:3;}}\n\
            s:1:\"o\"; O:1:\"A\":2:{s:1:\"x\";r:1;s:1:\"y\";R:1;}\n",
            &[
                (b"a", b"a:2:{i:0;i:1;s:1:\"k\";a:1:{i:0;R:3;}}"),
                (b"o", b"O:1:\"A\":2:{s:1:\"x\";r:1;s:1:\"y\";R:1;}"),
            ],
        ),
    ];
    for (bytes, rows) in CASES {
        assert!(rt; bytes.len() < 1000);
        expect_rows(&rt, rt.alloc(), &read_bundle(rt.alloc(), bytes)?, rows)?;
    }
    Ok(())
}

// An input, how many bytes of it are a bundle, its rows, and the bytes after it.
type Front = (&'static [u8], u64, Rows, &'static [u8]);

#[test]
fn fronts(rt: HostRuntime) -> Result<(), Fail> {
    const CASES: &[Front] = &[
        (b"", 0, &[], b""),
        (b"worker\n", 0, &[], b"worker\n"),
        (b"s:1:\"a\"; i:5;\n", 14, &[(b"a", b"i:5;")], b""),
        (
            b"s:1:\"a\"; i:5;\nworker\n",
            14,
            &[(b"a", b"i:5;")],
            b"worker\n",
        ),
        (b"s:1:\"a\"; i:5;\ns:1", 14, &[(b"a", b"i:5;")], b"s:1"),
    ];
    for (input, len, rows, behind) in CASES {
        assert!(rt; input.len() < 1000);
        let (bundle, rest) = read_front(rt.alloc(), input, *len)?;
        expect_rows(&rt, rt.alloc(), &bundle, rows)?;
        assert!(rt; rest == *behind);
    }
    Ok(())
}
