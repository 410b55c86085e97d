//! A plain single-threaded cache over a list of rows, which computes the reply that the model
//! defines.
#![tactic(auto)]

mod entry;
mod generating;
mod infos;
mod integers;
mod plain;
mod rows;
mod state;

pub use plain::Plain;
