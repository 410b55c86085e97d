//! Byte strings that take sixteen bytes in their owner, and no other memory if they are short.
#![tactic(auto)]

mod block;
mod laws;
mod short;
mod string;

pub use laws::strings_cross;
pub use string::ByteBox;
