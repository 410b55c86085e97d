//! A run of the program, and its result.

use apcu_play::{Status, run};
use io_edges::{Gate, MemSink, MemSource, NoGate};
use row_search::{Maker, RegexMaker};
use std::alloc::Global;
use std::process::Abort;
use std::sync::Wait;
use std::test::Fail;
use std::thread::Threads;

pub(crate) const STORE_AND_FETCH: &[u8] =
    b"worker\napcu_store s:1:\"a\"; i:5;\napcu_fetch s:1:\"a\";\n";

pub(crate) const PRINTED: &[u8] = b"worker 0\nb:1;\ni:5;b:1;\njournal\n0\n0\n0\n";

// 512 words, of which 480 are for blocks.
pub(crate) const SMALL: &[&str] = &["--shm-size", "4096", "--slots", "32"];

// A megabyte.
pub(crate) const LARGER: &[&str] = &["--shm-size", "1M", "--slots", "32"];

// How a run ends, what it prints and its message.
pub(crate) type Wanted<'a> = (Status, &'a [u8], &'a [u8]);

// The program's name, and these options.
pub(crate) fn words_of(alloc: Global, options: &[&str]) -> Result<Vec<String>, Fail> {
    let mut words = Vec::new(alloc);
    words.push(String::from_str(alloc, "apcu_run")?)?;
    for option in options {
        words.push(String::from_str(alloc, option)?)?;
    }
    Ok(words)
}

// The streams of a run: the input, the most bytes of a read and of a write, the numbers from 0 of
// the reads and writes that fail, and the bytes for which the output has room.
#[derive(Clone, Copy)]
pub(crate) struct Streams<'a> {
    pub(crate) input: &'a [u8],
    pub(crate) piece: usize,
    pub(crate) fails: [&'a [u64]; 2],
    pub(crate) room: usize,
}

// Streams without faults, of some pages.
pub(crate) fn smooth(input: &[u8]) -> Streams<'_> {
    Streams {
        input,
        piece: 4096,
        fails: [[].as_slice(), [].as_slice()],
        room: 16_384,
    }
}

// How a run ended, what it printed and its message.
pub(crate) struct Ended<'a> {
    pub(crate) status: Status,
    out: MemSink<'a>,
    err: MemSink<'a>,
}

impl Drop for Ended<'_> {
    fn drop(self) {
        let Ended {
            status: _,
            out: _,
            err: _,
        } = self;
    }
}

impl Ended<'_> {
    pub(crate) fn printed(&self) -> &[u8] {
        self.out.as_slice()
    }

    // The line feeds among what was printed.
    pub(crate) fn lines(&self) -> usize {
        let mut lines = 0usize;
        for byte in self.printed() {
            if *byte == b'\n' {
                lines = lines.saturating_add(1);
            }
        }
        lines
    }
}

// A run on these streams. It is the only call of `run`: what a call of it keeps until the end of a
// body makes the proof of that body long.
pub(crate) fn played<'a, R: Threads + Wait + Sync + Abort, M: Maker + Sync, G: Gate + Sync>(
    rt: &R,
    alloc: Global,
    words: &[String],
    streams: Streams<'a>,
    maker: &M,
    gate: &G,
) -> Result<Ended<'a>, Fail> {
    assert!(rt; streams.piece > 0);
    let mut input = MemSource::new(streams.input, streams.piece, streams.fails[0]);
    let mut out = MemSink::new(alloc, streams.room, streams.piece, streams.fails[1])?;
    let mut err = MemSink::new(alloc, 64, 64, &[])?;
    let status = run(
        rt, alloc, words, &mut input, &mut out, &mut err, maker, gate,
    );
    Ok(Ended { status, out, err })
}

// The run of the program with these words ends so.
pub(crate) fn expect_of<R: Threads + Wait + Sync + Abort, M: Maker + Sync>(
    rt: &R,
    alloc: Global,
    words: &[String],
    streams: Streams<'_>,
    maker: &M,
    wanted: Wanted<'_>,
) -> Result<(), Fail> {
    let ended = played(rt, alloc, words, streams, maker, &NoGate)?;
    let (status, printed, message) = wanted;
    assert_eq!(rt; ended.status, status);
    assert_eq!(rt; ended.out.as_slice(), printed);
    assert_eq!(rt; ended.err.as_slice(), message);
    Ok(())
}

// The run with these options ends so.
pub(crate) fn expect_on<R: Threads + Wait + Sync + Abort>(
    rt: &R,
    alloc: Global,
    options: &[&str],
    streams: Streams<'_>,
    wanted: Wanted<'_>,
) -> Result<(), Fail> {
    let words = words_of(alloc, options)?;
    expect_of(rt, alloc, &words, streams, &RegexMaker, wanted)
}
