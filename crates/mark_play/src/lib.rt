//! Plays the marks of a journal one after the other, in one thread on the cache over words: each
//! event probes as its mask says, and gets the reply of the single-threaded cache.
#![tactic(auto)]

mod answering;
mod holding;
mod legal;
mod lower;
mod reached;
mod replay;

pub use replay::Replay;
