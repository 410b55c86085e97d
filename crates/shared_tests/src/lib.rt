//! Tests of `shared_cache` through its public functions: workers that meet, their copies and
//! replies, iterators, and what is left in the end. Tests of what it consists of: the table of
//! pinned blocks, entries with their chains, and the map of its words.
#![tactic(auto)]

#[cfg(test)]
mod chains;
#[cfg(test)]
mod closing;
#[cfg(test)]
mod copies;
#[cfg(test)]
mod dropped_copy;
#[cfg(test)]
mod infos;
#[cfg(test)]
mod iterators;
#[cfg(test)]
mod map_held;
#[cfg(test)]
mod maps;
#[cfg(test)]
mod meeting;
#[cfg(test)]
mod pins;
#[cfg(test)]
mod readme;
#[cfg(test)]
mod rounds;
#[cfg(test)]
mod slot_calls;
#[cfg(test)]
mod slots;
#[cfg(test)]
mod steps;
#[cfg(test)]
mod texts;
#[cfg(test)]
mod works;
