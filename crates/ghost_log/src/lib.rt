//! A log that exists only in proofs: a state that changes event by event.
#![tactic(auto)]

mod log;

pub use log::{Begins, Happens, Log};
