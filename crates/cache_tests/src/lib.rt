//! Tests of the cache over words: its calls, counters, entries and statistics, each against the
//! plain cache, and its iterators.
#![tactic(auto)]

#[cfg(test)]
mod asking;
#[cfg(test)]
mod both;
#[cfg(test)]
mod calls;
#[cfg(test)]
mod counting;
#[cfg(test)]
mod draws;
#[cfg(test)]
mod held;
#[cfg(test)]
mod info_draws;
#[cfg(test)]
mod info_small;
#[cfg(test)]
mod iterators;
#[cfg(test)]
mod pair;
#[cfg(test)]
mod plainly;
#[cfg(test)]
mod readme;
#[cfg(test)]
mod small;
#[cfg(test)]
mod storing;
#[cfg(test)]
mod telling;
#[cfg(test)]
mod values;
#[cfg(test)]
mod windows;
