//! Worked runs: the room in a cache.

use crate::pieces::Piece::{Text, Zs};
use crate::rows::{DONE, Row, expect_rows};
use std::test::Fail;

// With the row under `k01` they fill a small cache.
const FROM_02_TO_30: &[u8] = b"\
    apcu_store s:3:\"k02\"; i:1;\napcu_store s:3:\"k03\"; i:1;\napcu_store s:3:\"k04\"; i:1;\n\
    apcu_store s:3:\"k05\"; i:1;\napcu_store s:3:\"k06\"; i:1;\napcu_store s:3:\"k07\"; i:1;\n\
    apcu_store s:3:\"k08\"; i:1;\napcu_store s:3:\"k09\"; i:1;\napcu_store s:3:\"k10\"; i:1;\n\
    apcu_store s:3:\"k11\"; i:1;\napcu_store s:3:\"k12\"; i:1;\napcu_store s:3:\"k13\"; i:1;\n\
    apcu_store s:3:\"k14\"; i:1;\napcu_store s:3:\"k15\"; i:1;\napcu_store s:3:\"k16\"; i:1;\n\
    apcu_store s:3:\"k17\"; i:1;\napcu_store s:3:\"k18\"; i:1;\napcu_store s:3:\"k19\"; i:1;\n\
    apcu_store s:3:\"k20\"; i:1;\napcu_store s:3:\"k21\"; i:1;\napcu_store s:3:\"k22\"; i:1;\n\
    apcu_store s:3:\"k23\"; i:1;\napcu_store s:3:\"k24\"; i:1;\napcu_store s:3:\"k25\"; i:1;\n\
    apcu_store s:3:\"k26\"; i:1;\napcu_store s:3:\"k27\"; i:1;\napcu_store s:3:\"k28\"; i:1;\n\
    apcu_store s:3:\"k29\"; i:1;\napcu_store s:3:\"k30\"; i:1;\n";

const THIRTY_STORED: &[u8] = b"worker 0\n\
    b:1;\nb:1;\nb:1;\nb:1;\nb:1;\nb:1;\nb:1;\nb:1;\nb:1;\nb:1;\n\
    b:1;\nb:1;\nb:1;\nb:1;\nb:1;\nb:1;\nb:1;\nb:1;\nb:1;\nb:1;\n\
    b:1;\nb:1;\nb:1;\nb:1;\nb:1;\nb:1;\nb:1;\nb:1;\nb:1;\nb:1;\n";

const THIRTY_EVENTS: &[u8] = b"journal\n\
    0\n0\n0\n0\n0\n0\n0\n0\n0\n0\n0\n0\n0\n0\n0\n0\n0\n0\n0\n0\n0\n0\n0\n0\n0\n0\n0\n0\n0\n0\n";

const ROOM: &[Row] = &[
    // 482 words are too many, 480 are all.
    Row {
        input: &[
            Text(b"worker\napcu_store s:1:\"k\"; i:1;\napcu_store s:1:\"a\"; s:3729:\""),
            Zs(3729),
            Text(b"\";\napcu_exists s:1:\"k\";\n"),
        ],
        printed: &[Text(b"worker 0\nb:1;\nb:0;\nb:1;\njournal\n0\n0\n0\n0\n")],
        ..DONE
    },
    Row {
        input: &[
            Text(b"worker\napcu_store s:1:\"a\"; s:3728:\""),
            Zs(3728),
            Text(b"\";\n"),
        ],
        printed: &[Text(b"worker 0\nb:1;\njournal\n0\n0\n")],
        ..DONE
    },
    // The cache is full, and all rows are evicted.
    Row {
        input: &[
            Text(b"worker\napcu_store s:3:\"k01\"; i:1;\n"),
            Text(FROM_02_TO_30),
            Text(b"apcu_store s:3:\"k31\"; i:1;\napcu_fetch s:3:\"k01\";\n"),
            Text(b"apcu_exists a:3:{i:0;s:3:\"k02\";i:1;s:3:\"k30\";i:2;s:3:\"k31\";}\n"),
        ],
        printed: &[
            Text(THIRTY_STORED),
            Text(b"b:1;\nb:0;b:0;\na:1:{s:3:\"k31\";b:1;}\n"),
            Text(THIRTY_EVENTS),
            Text(b"0\n0\n0\n0\n0\n0\n"),
        ],
        ..DONE
    },
    Row {
        input: &[
            Text(b"worker\napcu_store s:3:\"k01\"; i:1;\n"),
            Text(FROM_02_TO_30),
            Text(b"apcu_store s:3:\"k31\"; i:1;\napcu_cache_info b:1;\napcu_sma_info b:0;\n"),
        ],
        printed: &[
            Text(THIRTY_STORED),
            Text(
                b"b:1;\n\
                a:8:{s:9:\"num_slots\";i:32;s:3:\"ttl\";i:0;s:8:\"num_hits\";i:0;\
                s:10:\"num_misses\";i:0;s:11:\"num_inserts\";i:1;s:11:\"num_entries\";i:1;\
                s:8:\"expunges\";i:1;s:8:\"mem_size\";i:128;}\n\
                a:4:{s:7:\"num_seg\";i:1;s:8:\"seg_size\";i:4096;s:9:\"avail_mem\";i:3712;\
                s:11:\"block_lists\";a:1:{i:0;a:1:{i:0;a:2:{s:4:\"size\";i:3712;\
                s:6:\"offset\";i:384;}}}}\n",
            ),
            Text(THIRTY_EVENTS),
            Text(b"0\n0\n0\n0\n"),
        ],
        ..DONE
    },
    // One row has expired, and is evicted alone.
    Row {
        options: &["--shm-size", "4096", "--slots", "32", "--ttl", "10"],
        input: &[
            Text(b"worker\ntime i:100;\napcu_store s:3:\"k01\"; i:1; i:5;\n"),
            Text(FROM_02_TO_30),
            Text(b"time i:106;\napcu_store s:3:\"k31\"; i:1;\napcu_fetch s:3:\"k02\";\n"),
            Text(b"apcu_fetch s:3:\"k01\";\n"),
            Text(b"apcu_exists a:3:{i:0;s:3:\"k03\";i:1;s:3:\"k30\";i:2;s:3:\"k31\";}\n"),
            Text(b"apcu_cache_info b:1;\n"),
        ],
        printed: &[
            Text(THIRTY_STORED),
            Text(
                b"b:1;\ni:1;b:1;\nb:0;b:0;\n\
                a:3:{s:3:\"k03\";b:1;s:3:\"k30\";b:1;s:3:\"k31\";b:1;}\n\
                a:8:{s:9:\"num_slots\";i:32;s:3:\"ttl\";i:10;s:8:\"num_hits\";i:1;\
                s:10:\"num_misses\";i:1;s:11:\"num_inserts\";i:31;s:11:\"num_entries\";i:30;\
                s:8:\"expunges\";i:0;s:8:\"mem_size\";i:3840;}\n",
            ),
            Text(THIRTY_EVENTS),
            Text(b"0\n0\n0\n0\n0\n0\n0\n0\n"),
        ],
        ..DONE
    },
];

#[test]
fn worked_runs_of_room(rt: HostRuntime) -> Result<(), Fail> {
    expect_rows(&rt, rt.alloc(), ROOM)
}
