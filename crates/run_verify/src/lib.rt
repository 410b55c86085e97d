//! The judge of outputs: whether the replies in an output are those of the single-threaded cache,
//! in the order that its journal gives.
#![tactic(auto)]

mod asking;
mod comparing;
mod fault;
mod game_so_far;
mod laws;
mod marks;
mod patterns;
mod pools;
mod reading;
mod seat;
mod seats;
mod verifying;

pub use comparing::difference;
pub use fault::VerifyFault;
pub use laws::{lines_tell_marks, plays_are_short, yes_is_an_output};
pub use reading::{journal_at, line_end, read_mark};
pub use verifying::{Verdict, verify};
