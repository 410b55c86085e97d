//! A row of numbers that finds the first one that is large enough, the last one before a place that
//! is not 0, and the largest, without reading them all.
#![tactic(auto)]

mod bits;
mod levels;
mod marks;
mod pages;
mod pairs;
mod row;
mod tree;
mod words;

pub use pairs::PairRow;
pub use row::MaxRow;
