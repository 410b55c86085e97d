//! Iterators: how their lines are read, and which are refused.

use crate::asked::{Asked, Row, expect_steps};
use crate::faults::{Fault, all_refused};
use apcu_model::List;
use notation::Reason;
use std::test::Fail;

#[test]
fn iterators_in_all_their_forms(rt: HostRuntime) -> Result<(), Fail> {
    let text = b"worker\n\
        time i:100;\n\
        APCUIterator N;\n\
        APCUIterator s:2:\"//\";\n\
        APCUIterator s:3:\"//i\"; a:0:{}\n\
        APCUIterator s:5:\"/a/i/\"; a:1:{i:0;s:3:\"key\";} i:1;\n\
        APCUIterator s:6:\"/(/i/i\"; \
            a:3:{i:7;s:3:\"ttl\";i:0;s:3:\"key\";s:1:\"x\";s:3:\"ttl\";} i:65536; s:6:\"active\";\n\
        APCUIterator s:4:\"/\xc3\xa4/\"; \
            a:4:{i:0;s:5:\"value\";i:1;s:5:\"mtime\";\
            i:2;s:13:\"deletion_time\";i:3;s:8:\"mem_size\";} i:2; s:7:\"deleted\";\n\
        APCUIterator N; \
            a:3:{i:0;s:8:\"num_hits\";i:1;s:13:\"creation_time\";i:2;s:11:\"access_time\";} \
            i:3; s:7:\"deleted\";\n\
        APCUIterator_delete N;\n\
        APCUIterator_delete s:6:\"/^a$/i\"; i:1;\n\
        APCUIterator_totals N;\n\
        APCUIterator_totals s:3:\"/a/\"; s:7:\"deleted\";\n";
    const ROWS: &[Row] = &[
        (100, Asked::Walk(None, 511, 100, List::Active), 32),
        (
            100,
            Asked::Walk(Some((b"", false)), 511, 100, List::Active),
            32,
        ),
        (
            100,
            Asked::Walk(Some((b"", true)), 0, 100, List::Active),
            32,
        ),
        (
            100,
            Asked::Walk(Some((b"a/i", false)), 1, 1, List::Active),
            32,
        ),
        (
            100,
            Asked::Walk(Some((b"(/i", true)), 257, 65536, List::Active),
            32,
        ),
        (
            100,
            Asked::Walk(Some((b"\xc3\xa4", false)), 170, 2, List::Deleted),
            1,
        ),
        (100, Asked::Walk(None, 84, 3, List::Deleted), 1),
        (100, Asked::WalkDelete(None, 100), 32),
        (100, Asked::WalkDelete(Some((b"^a$", true)), 1), 32),
        (100, Asked::Totals(None, List::Active), 1),
        (100, Asked::Totals(Some((b"a", false)), List::Deleted), 1),
    ];
    expect_steps(&rt, rt.alloc(), text, ROWS)
}

#[test]
fn iterators_at_fault(rt: HostRuntime) {
    const FAULTS: &[Fault] = &[
        (b"worker\nAPCUIterator\n", 19, Reason::Argument),
        (b"worker\nAPCUIterator x\n", 20, Reason::Tag),
        (b"worker\nAPCUIterator N;", 22, Reason::End),
        (b"worker\nAPCUIterator i:1;\n", 20, Reason::Argument),
        (
            b"worker\nAPCUIterator a:1:{i:0;s:3:\"/a/\";}\n",
            20,
            Reason::Argument,
        ),
        (b"worker\nAPCUIterator s:0:\"\";\n", 20, Reason::Argument),
        (b"worker\nAPCUIterator s:1:\"/\";\n", 20, Reason::Argument),
        (b"worker\nAPCUIterator s:2:\"/(\";\n", 20, Reason::Argument),
        (b"worker\nAPCUIterator s:2:\"/i\";\n", 20, Reason::Argument),
        (b"worker\nAPCUIterator s:3:\"a/i\";\n", 20, Reason::Argument),
        (
            b"worker\nAPCUIterator s:4:\"/a/x\";\n",
            20,
            Reason::Argument,
        ),
        (
            b"worker\nAPCUIterator s:5:\"/a/ii\";\n",
            20,
            Reason::Argument,
        ),
        (
            b"worker\nAPCUIterator s:3:\"/\xff/\";\n",
            20,
            Reason::Argument,
        ),
        (b"worker\nAPCUIterator N; N;\n", 23, Reason::Argument),
        (
            b"worker\nAPCUIterator N; s:3:\"key\";\n",
            23,
            Reason::Argument,
        ),
        (
            b"worker\nAPCUIterator N; a:1:{i:0;i:1;}\n",
            23,
            Reason::Argument,
        ),
        (
            b"worker\nAPCUIterator N; a:2:{i:0;s:3:\"key\";i:1;R:2;}\n",
            23,
            Reason::Argument,
        ),
        (
            b"worker\nAPCUIterator N; a:2:{i:0;s:3:\"key\";i:1;s:4:\"hits\";}\n",
            23,
            Reason::Argument,
        ),
        (
            b"worker\nAPCUIterator N; a:0:{} i:0;\n",
            30,
            Reason::Argument,
        ),
        (
            b"worker\nAPCUIterator N; a:0:{} i:65537;\n",
            30,
            Reason::Argument,
        ),
        (
            b"worker\nAPCUIterator N; a:0:{} i:-1;\n",
            30,
            Reason::Argument,
        ),
        (
            b"worker\nAPCUIterator N; a:0:{} s:6:\"active\";\n",
            30,
            Reason::Argument,
        ),
        (
            b"worker\nAPCUIterator N; a:0:{} i:1; i:1;\n",
            35,
            Reason::Argument,
        ),
        (
            b"worker\nAPCUIterator N; a:0:{} i:1; s:6:\"Active\";\n",
            35,
            Reason::Argument,
        ),
        (
            b"worker\nAPCUIterator N; a:0:{} i:1; s:6:\"active\"; N;\n",
            49,
            Reason::Argument,
        ),
        (b"worker\nAPCUIterator_delete\n", 26, Reason::Argument),
        (
            b"worker\nAPCUIterator_delete N; a:0:{}\n",
            30,
            Reason::Argument,
        ),
        (
            b"worker\nAPCUIterator_delete N; i:0;\n",
            30,
            Reason::Argument,
        ),
        (
            b"worker\nAPCUIterator_delete N; i:1; s:6:\"active\";\n",
            35,
            Reason::Argument,
        ),
        (b"worker\nAPCUIterator_totals\n", 26, Reason::Argument),
        (
            b"worker\nAPCUIterator_totals N; i:1;\n",
            30,
            Reason::Argument,
        ),
        (
            b"worker\nAPCUIterator_totals N; s:7:\"deleted\"; N;\n",
            45,
            Reason::Argument,
        ),
    ];
    all_refused(&rt, rt.alloc(), FAULTS);
}
