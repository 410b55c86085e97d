//! The edges of a program: the sources and sinks of its bytes, and points at which a test may hold
//! a worker.
#![tactic(auto)]

mod gate;
mod memory_sink;
mod memory_source;
mod reading;
mod sink;
mod source;
mod std_sink;
mod std_source;
mod writing;

pub use gate::{Gate, NoGate, Point};
pub use memory_sink::MemSink;
pub use memory_source::MemSource;
pub use reading::{ReadError, read_all};
pub use sink::{Put, Sink};
pub use source::{Got, Source};
pub use std_sink::StdSink;
pub use std_source::StdSource;
pub use writing::{WriteFault, write_all};
