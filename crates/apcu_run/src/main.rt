//! The program: `main`, which passes its arguments and the standard streams to `apcu_play::run`.
#![tactic(auto)]

use apcu_play::{Status, run, tell};
use io_edges::{NoGate, StdSink, StdSource};
use row_search::RegexMaker;
use std::alloc::AllocError;
use std::env;
use std::io::ErrorKind;
use std::process::ExitCode;
use std::rt::Env;

// The program's arguments, its name first. If one is not UTF-8, the command line is as invalid as
// an empty one.
fn words_of<R: Env + AllocGlobal>(rt: &R) -> Result<Vec<String>, AllocError> {
    match env::args(rt) {
        Ok(words) => words.collect(rt.alloc()),
        Err(error) if error.kind() == ErrorKind::OutOfMemory => Err(AllocError),
        Err(_) => Ok(Vec::new(rt.alloc())),
    }
}

fn main(rt: HostRuntime) -> ExitCode {
    let mut err = StdSink::standard_error(&rt);
    let status = match words_of(&rt) {
        Ok(words) => {
            let mut input = StdSource::standard_input(&rt);
            let mut out = StdSink::standard_output(&rt);
            run(
                &rt,
                rt.alloc(),
                &words,
                &mut input,
                &mut out,
                &mut err,
                &RegexMaker,
                &NoGate,
            )
        }
        Err(_) => {
            tell(&mut err, Status::NoMemory);
            Status::NoMemory
        }
    };
    status.exit_code()
}
