//! A row of a table of worked runs: a run with its whole output. Runs that need no more than files
//! are in `tests/`.

use crate::pieces::{Piece, spelled};
use crate::runs::{SMALL, expect_on, smooth};
use apcu_play::Status;
use std::alloc::Global;
use std::process::Abort;
use std::sync::Wait;
use std::test::Fail;
use std::thread::Threads;

// The options and the input; how the run ends, what it prints and its message.
pub(crate) struct Row {
    pub(crate) options: &'static [&'static str],
    pub(crate) input: &'static [Piece],
    pub(crate) status: Status,
    pub(crate) printed: &'static [Piece],
    pub(crate) message: &'static [u8],
}

// A run that prints its replies, in a small cache.
pub(crate) const DONE: Row = Row {
    options: SMALL,
    input: &[],
    status: Status::Done,
    printed: &[],
    message: b"",
};

// A run that is refused before any call, in a small cache.
pub(crate) const REFUSED: Row = Row {
    status: Status::Script,
    ..DONE
};

// Each row of a table ends as it says. The tables are small, since what the borrow checker proves
// of a body grows with the constants that it names.
pub(crate) fn expect_rows<R: Threads + Wait + Sync + Abort>(
    rt: &R,
    alloc: Global,
    rows: &[Row],
) -> Result<(), Fail> {
    for row in rows {
        let input = spelled(alloc, row.input)?;
        let printed = spelled(alloc, row.printed)?;
        let wanted = (row.status, printed.as_slice(), row.message);
        expect_on(rt, alloc, row.options, smooth(input.as_slice()), wanted)?;
    }
    Ok(())
}
