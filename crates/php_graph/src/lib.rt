//! Value graphs as PHP's serialize notation numbers them, their keys, and PHP's string hash.
//!
//! A `Builder` makes a graph: `Builder::new`, `push` for each item in the order of the notation,
//! and `seal` once nothing more is wanted. `notation::read_value` makes one of a text.
#![tactic(auto)]

mod builder;
mod bytes;
mod child;
mod container;
mod draft_steps;
mod graph;
mod item;
mod key;
mod kind;
mod laws;
mod members;
mod numbers;
mod places;
mod props;

pub use builder::{Builder, LEVELS, MOST_VALUES};
pub use bytes::Bytes;
pub use child::Child;
pub use graph::{Graph, block_words};
pub use item::{BuildFault, Item, Wants};
pub use key::Key;
pub use kind::Kind;
pub use laws::{graphs_are_written, written_graphs};
pub use members::Members;
pub use numbers::{HASH_START, TOP_BIT, hash_of, hash_step, int_of_text, integer_texts};
pub use places::Place;
pub use props::Props;
