//! Worked runs: free blocks, references and fetches of several keys.

use crate::pieces::Piece::{Text, Zs};
use crate::rows::{DONE, REFUSED, Row, expect_rows};
use apcu_play::Status;
use std::test::Fail;

const BLOCKS: &[Row] = &[
    // An object with a property of each kind, in the cache without options.
    Row {
        options: &[],
        input: &[Text(
            b"worker\n\
            apcu_store s:10:\"session:42\"; O:11:\"App\\Session\":3:{\
            s:4:\"user\";a:2:{s:2:\"id\";i:42;s:4:\"name\";s:3:\"Ann\";}\
            s:8:\"\0*\0token\";s:6:\"x1y2z3\";s:17:\"\0App\\Session\0cart\";\
            a:1:{i:0;a:2:{s:3:\"sku\";s:4:\"A-17\";s:3:\"qty\";i:2;}}}\n\
            apcu_fetch s:10:\"session:42\";\n\
            APCUIterator N; a:2:{i:0;s:3:\"key\";i:1;s:8:\"mem_size\";}\n",
        )],
        printed: &[Text(
            b"worker 0\n\
            b:1;\n\
            O:11:\"App\\Session\":3:{\
            s:4:\"user\";a:2:{s:2:\"id\";i:42;s:4:\"name\";s:3:\"Ann\";}\
            s:8:\"\0*\0token\";s:6:\"x1y2z3\";s:17:\"\0App\\Session\0cart\";\
            a:1:{i:0;a:2:{s:3:\"sku\";s:4:\"A-17\";s:3:\"qty\";i:2;}}}b:1;\n\
            a:1:{i:0;a:2:{s:3:\"key\";s:10:\"session:42\";s:8:\"mem_size\";i:464;}}\n\
            journal\n0\n0\n0\n0\n",
        )],
        ..DONE
    },
    // Two free blocks side by side are one, whichever was free first.
    Row {
        input: &[
            Text(b"worker\napcu_store s:1:\"a\"; s:1168:\""),
            Zs(1168),
            Text(b"\";\napcu_store s:1:\"b\"; s:1168:\""),
            Zs(1168),
            Text(b"\";\napcu_store s:1:\"c\"; s:1168:\""),
            Zs(1168),
            Text(b"\";\napcu_delete s:1:\"a\";\napcu_delete s:1:\"b\";\n"),
            Text(b"apcu_store s:1:\"d\"; s:2448:\""),
            Zs(2448),
            Text(b"\";\napcu_exists s:1:\"c\";\n"),
        ],
        printed: &[
            Text(b"worker 0\nb:1;\nb:1;\nb:1;\nb:1;\nb:1;\nb:1;\nb:1;\n"),
            Text(b"journal\n0\n0\n0\n0\n0\n0\n0\n0\n"),
        ],
        ..DONE
    },
    Row {
        input: &[
            Text(b"worker\napcu_store s:1:\"a\"; s:1168:\""),
            Zs(1168),
            Text(b"\";\napcu_store s:1:\"b\"; s:1168:\""),
            Zs(1168),
            Text(b"\";\napcu_store s:1:\"c\"; s:1168:\""),
            Zs(1168),
            Text(b"\";\napcu_delete s:1:\"b\";\napcu_delete s:1:\"a\";\n"),
            Text(b"apcu_store s:1:\"d\"; s:2448:\""),
            Zs(2448),
            Text(b"\";\napcu_exists s:1:\"c\";\n"),
        ],
        printed: &[
            Text(b"worker 0\nb:1;\nb:1;\nb:1;\nb:1;\nb:1;\nb:1;\nb:1;\n"),
            Text(b"journal\n0\n0\n0\n0\n0\n0\n0\n0\n"),
        ],
        ..DONE
    },
    // The references of two values are numbered in one sequence.
    Row {
        input: &[Text(
            b"worker\n\
            apcu_store s:1:\"a\"; a:1:{i:0;R:1;}\n\
            apcu_store s:1:\"5\"; O:1:\"A\":1:{s:1:\"x\";r:1;}\n\
            apcu_fetch a:2:{i:0;s:1:\"a\";i:1;s:1:\"5\";}\n",
        )],
        printed: &[
            Text(b"worker 0\nb:1;\nb:1;\n"),
            Text(b"a:2:{s:1:\"a\";a:1:{i:0;R:2;}i:5;O:1:\"A\":1:{s:1:\"x\";r:3;}}b:1;\n"),
            Text(b"journal\n0\n0\n0\n0\n0\n"),
        ],
        ..DONE
    },
    // A fetch of no key is no event.
    Row {
        input: &[Text(b"worker\napcu_fetch a:0:{}\n")],
        printed: &[Text(b"worker 0\na:0:{}b:1;\njournal\n0\n")],
        ..DONE
    },
    Row {
        input: &[Text(b"worker\nAPCUIterator s:3:\"/(/\";\n")],
        status: Status::Pattern,
        message: b"apcu_run: pattern\n",
        ..DONE
    },
    Row {
        input: &[Text(b"worker\nAPCUIterator s:2:\"/(\";\n")],
        message: b"apcu_run: script: byte 20: argument\n",
        ..REFUSED
    },
];

#[test]
fn worked_runs_of_blocks(rt: HostRuntime) -> Result<(), Fail> {
    expect_rows(&rt, rt.alloc(), BLOCKS)
}
