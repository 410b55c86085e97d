//! Value graphs as words, and back.
//!
//! The cache writes a value by `persist_content`, and `persist` writes a graph alone. `unpersist`
//! copies the graph out again, `push_string` the bytes of a string. A place is the number of a word
//! in the segment.
#![tactic(auto)]

mod bytes;
mod contents;
mod laws;
mod numbers;
mod read;
mod read_members;
mod scalars;
mod text;
mod write;
mod write_members;

pub use bytes::{byte_word, get_bytes, put_bytes};
pub use contents::{Content, content_block_words, content_words, persist_content, text_content};
pub use laws::{bytes_are_packed, images_are_runs, images_differ, runs_are_written, runs_stand};
pub use read::unpersist;
pub use scalars::{bool_content, int_content, null_content};
pub use text::{push_string, string_len};
pub use write::{BOOL, NULL, persist};
pub use write_members::INT;
