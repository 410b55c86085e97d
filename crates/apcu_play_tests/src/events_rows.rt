//! Worked runs: statistics, events and generated scripts.

use crate::pieces::Piece::Text;
use crate::rows::{DONE, Row, expect_rows};
use apcu_play::Status;
use std::test::Fail;

const EVENTS: &[Row] = &[
    // Statistics of a key.
    Row {
        input: &[Text(
            b"worker\n\
            time i:100;\n\
            apcu_store s:1:\"a\"; i:1; i:10;\n\
            time i:105;\n\
            apcu_fetch s:1:\"a\";\n\
            apcu_key_info s:1:\"a\";\n\
            apcu_key_info s:1:\"x\";\n",
        )],
        printed: &[Text(
            b"worker 0\nb:1;\ni:1;b:1;\n\
            a:6:{s:4:\"hits\";i:1;s:11:\"access_time\";i:105;s:5:\"mtime\";i:100;\
            s:13:\"creation_time\";i:100;s:13:\"deletion_time\";i:0;s:3:\"ttl\";i:10;}\n\
            N;\n\
            journal\n0\n0\n0\n0\n0\n",
        )],
        ..DONE
    },
    // An odd number of slots, and five walks that may have more events than a run.
    Row {
        options: &["--slots", "31"],
        input: &[Text(b"worker\napcu_fetch s:1:\"a\";\n")],
        status: Status::Usage,
        message: b"apcu_run: usage\n",
        ..DONE
    },
    Row {
        options: &["--slots", "1048576"],
        input: &[Text(
            b"worker\n\
            APCUIterator N;\n\
            APCUIterator N;\n\
            APCUIterator N;\n\
            APCUIterator N;\n\
            APCUIterator N;\n",
        )],
        status: Status::TooMany,
        message: b"apcu_run: too many events\n",
        ..DONE
    },
    // A generated script.
    Row {
        options: &["--generate", "0", "--workers", "1", "--calls", "1"],
        printed: &[Text(
            b"workers 1\ncalls 1\ninserts 1\n\
            counter 0 0\ncounter 1 0\ncounter 2 0\ncounter 3 0\n\
            counter 4 0\ncounter 5 0\ncounter 6 0\ncounter 7 93\n",
        )],
        ..DONE
    },
    // Rows are counted, and those of one letter deleted, in either case.
    Row {
        input: &[Text(
            b"worker\n\
            apcu_store s:1:\"a\"; i:1;\n\
            apcu_store s:1:\"A\"; i:1;\n\
            apcu_store s:1:\"b\"; i:1;\n\
            APCUIterator_totals N;\n\
            APCUIterator_delete s:6:\"/^a$/i\";\n\
            apcu_exists a:3:{i:0;s:1:\"a\";i:1;s:1:\"A\";i:2;s:1:\"b\";}\n\
            apcu_delete a:2:{i:0;s:1:\"a\";i:1;s:1:\"b\";}\n",
        )],
        printed: &[Text(
            b"worker 0\nb:1;\nb:1;\nb:1;\n\
            a:3:{s:5:\"count\";i:3;s:4:\"hits\";i:0;s:4:\"size\";i:384;}\n\
            b:1;\n\
            a:1:{s:1:\"b\";b:1;}\n\
            a:1:{i:0;s:1:\"a\";}\n\
            journal\n0\n0\n0\n0\n0\n0\n0\n0\n0\n0\n0\n",
        )],
        ..DONE
    },
];

#[test]
fn worked_runs_of_events(rt: HostRuntime) -> Result<(), Fail> {
    expect_rows(&rt, rt.alloc(), EVENTS)
}
