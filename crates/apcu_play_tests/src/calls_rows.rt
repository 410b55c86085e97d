//! Worked runs: times to live, counters, entries and a walk.

use crate::pieces::Piece::{Text, Zs};
use crate::rows::{DONE, Row, expect_rows};
use std::test::Fail;

const CALLS: &[Row] = &[
    // A row expires.
    Row {
        input: &[Text(
            b"worker\n\
            time i:100;\n\
            apcu_store s:1:\"a\"; i:1; i:10;\n\
            time i:110;\n\
            apcu_fetch s:1:\"a\";\n\
            time i:111;\n\
            apcu_fetch s:1:\"a\";\n\
            apcu_add s:1:\"a\"; i:2;\n\
            apcu_add s:1:\"a\"; i:2;\n",
        )],
        printed: &[Text(
            b"worker 0\nb:1;\ni:1;b:1;\nb:0;b:0;\nb:1;\nb:0;\njournal\n0\n0\n0\n0\n0\n0\n",
        )],
        ..DONE
    },
    // One value of two is too large.
    Row {
        input: &[
            Text(b"worker\napcu_store a:2:{s:1:\"a\";i:1;s:1:\"b\";s:3729:\""),
            Zs(3729),
            Text(b"\";}\n"),
        ],
        printed: &[Text(b"worker 0\na:1:{s:1:\"b\";i:-1;}\njournal\n0\n0\n0\n")],
        ..DONE
    },
    // Counters: past the largest integer, of a string, and of a missing key.
    Row {
        input: &[Text(
            b"worker\n\
            apcu_store s:1:\"a\"; i:9223372036854775807;\n\
            apcu_inc s:1:\"a\";\n\
            apcu_store s:1:\"s\"; s:1:\"7\";\n\
            apcu_inc s:1:\"s\";\n\
            apcu_inc s:1:\"n\"; i:3;\n\
            apcu_inc s:1:\"n\";\n\
            apcu_inc s:1:\"n\";\n",
        )],
        printed: &[Text(
            b"worker 0\nb:1;\ni:-9223372036854775808;b:1;\nb:1;\nb:0;b:0;\n\
            i:3;b:1;\ni:4;b:1;\ni:5;b:1;\njournal\n0\n0\n0\n0\n0\n0\n0\n0\n",
        )],
        ..DONE
    },
    Row {
        input: &[Text(
            b"worker\n\
            apcu_store s:1:\"a\"; i:1;\n\
            apcu_cas s:1:\"a\"; i:1; i:2;\n\
            apcu_cas s:1:\"a\"; i:1; i:2;\n",
        )],
        printed: &[Text(b"worker 0\nb:1;\nb:1;\nb:0;\njournal\n0\n0\n0\n0\n")],
        ..DONE
    },
    // The value of a generator is stored under each key that was missing, inner first.
    Row {
        input: &[Text(
            b"worker\n\
            apcu_entry s:2:\"k1\"; (apcu_entry s:2:\"k2\"; (i:7;))\n\
            apcu_fetch s:2:\"k2\";\n\
            apcu_entry s:2:\"k1\"; (i:8;)\n",
        )],
        printed: &[Text(b"worker 0\ni:7;\ni:7;b:1;\ni:7;\njournal\n0\n0\n0\n0\n")],
        ..DONE
    },
    // A walk with one row a step at least: the third step finds no slot with a row.
    Row {
        input: &[Text(
            b"worker\n\
            apcu_store s:1:\"a\"; i:1;\n\
            apcu_store s:1:\"A\"; i:1;\n\
            apcu_store s:1:\"b\"; i:1;\n\
            APCUIterator N; a:1:{i:0;s:3:\"key\";} i:1;\n",
        )],
        printed: &[Text(
            b"worker 0\nb:1;\nb:1;\nb:1;\n\
            a:3:{i:0;a:1:{s:3:\"key\";s:1:\"a\";}i:1;a:1:{s:3:\"key\";s:1:\"A\";}\
            i:2;a:1:{s:3:\"key\";s:1:\"b\";}}\n\
            journal\n0\n0\n0\n0\n0\n0\n0\n",
        )],
        ..DONE
    },
];

#[test]
fn worked_runs_of_calls(rt: HostRuntime) -> Result<(), Fail> {
    expect_rows(&rt, rt.alloc(), CALLS)
}
