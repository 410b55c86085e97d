//! Worked runs: values.

use crate::pieces::Piece::Text;
use crate::rows::{DONE, REFUSED, Row, expect_rows};
use std::test::Fail;

const VALUES: &[Row] = &[
    // No script.
    Row {
        printed: &[Text(b"journal\n")],
        ..DONE
    },
    Row {
        input: &[Text(
            b"worker\n\
            apcu_fetch s:1:\"a\";\n\
            apcu_store s:1:\"a\"; b:0;\n\
            apcu_fetch s:1:\"a\";\n",
        )],
        printed: &[Text(b"worker 0\nb:0;b:0;\nb:1;\nb:0;b:1;\njournal\n0\n0\n0\n0\n")],
        ..DONE
    },
    // Values with references.
    Row {
        input: &[Text(
            b"worker\n\
            apcu_store s:1:\"a\"; a:1:{i:0;R:1;}\n\
            apcu_fetch s:1:\"a\";\n",
        )],
        printed: &[Text(b"worker 0\nb:1;\na:1:{i:0;R:1;}b:1;\njournal\n0\n0\n0\n")],
        ..DONE
    },
    Row {
        input: &[Text(
            b"worker\n\
            apcu_store s:1:\"a\"; O:1:\"A\":2:{s:1:\"x\";r:1;s:1:\"y\";R:1;}\n\
            apcu_fetch s:1:\"a\";\n",
        )],
        printed: &[Text(
            b"worker 0\nb:1;\nO:1:\"A\":2:{s:1:\"x\";r:1;s:1:\"y\";R:1;}b:1;\n\
            journal\n0\n0\n0\n",
        )],
        ..DONE
    },
    Row {
        input: &[Text(
            b"worker\n\
            apcu_store s:1:\"a\"; a:4:{i:0;i:1;i:1;R:2;i:2;O:1:\"A\":0:{}i:3;r:3;}\n\
            apcu_fetch s:1:\"a\";\n",
        )],
        printed: &[Text(
            b"worker 0\nb:1;\na:4:{i:0;i:1;i:1;R:2;i:2;O:1:\"A\":0:{}i:3;r:3;}b:1;\n\
            journal\n0\n0\n0\n",
        )],
        ..DONE
    },
    // Values that are refused.
    Row {
        input: &[Text(b"worker\napcu_store s:1:\"a\"; i:05;\n")],
        message: b"apcu_run: script: byte 29: number\n",
        ..REFUSED
    },
    Row {
        input: &[Text(b"worker\napcu_store s:1:\"a\"; s:3:\"ab\";\n")],
        message: b"apcu_run: script: byte 29: length\n",
        ..REFUSED
    },
    Row {
        input: &[Text(b"worker\napcu_store s:1:\"a\"; d:1.5;\n")],
        message: b"apcu_run: script: byte 27: tag\n",
        ..REFUSED
    },
    Row {
        input: &[Text(b"worker\napcu_store s:1:\"a\"; a:1:{i:0;r:1;}\n")],
        message: b"apcu_run: script: byte 38: target\n",
        ..REFUSED
    },
];

#[test]
fn worked_runs_of_values(rt: HostRuntime) -> Result<(), Fail> {
    expect_rows(&rt, rt.alloc(), VALUES)
}
