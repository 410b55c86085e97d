//! Tests of values and of the words that hold them: byte strings and value graphs, their texts and
//! their words, the edges at which bytes are read and written; rows of numbers, and the blocks of
//! the allocator.
#![tactic(auto)]

#[cfg(test)]
mod blocks;
#[cfg(test)]
mod edges;
#[cfg(test)]
mod graphs;
#[cfg(test)]
mod images;
#[cfg(test)]
mod listed;
#[cfg(test)]
mod rows;
#[cfg(test)]
mod steps;
#[cfg(test)]
mod strings;
#[cfg(test)]
mod texts;
#[cfg(test)]
mod words;
