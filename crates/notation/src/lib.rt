//! PHP's serialize notation: values read from bytes, and written.
#![tactic(auto)]

mod byte_out;
mod cursor;
mod fault;
mod items;
mod laws;
mod pieces;
mod plain;
mod reading;
mod tokens;
mod writing;

pub use byte_out::ByteOut;
pub use cursor::Cursor;
pub use fault::{Fault, ReadFault, Reason};
pub use laws::{readings_are_spellings, readings_stay_inside, texts_tell_values_apart};
pub use pieces::{write_key, write_string_head};
pub use plain::{read_integer, read_string};
pub use reading::read_value;
pub use writing::write_value;
