//! Tests of `apcu_play`: the program's options, worked runs, each way in which a run can fail, and
//! workers that are held at points of their scripts.
#![tactic(auto)]

#[cfg(test)]
mod blocks_rows;
#[cfg(test)]
mod calls_rows;
#[cfg(test)]
mod counting;
#[cfg(test)]
mod cuts;
#[cfg(test)]
mod events_rows;
#[cfg(test)]
mod faults;
#[cfg(test)]
mod gates;
#[cfg(test)]
mod generated;
#[cfg(test)]
mod makers;
#[cfg(test)]
mod options;
#[cfg(test)]
mod pieces;
#[cfg(test)]
mod room_rows;
#[cfg(test)]
mod rows;
#[cfg(test)]
mod runs;
#[cfg(test)]
mod tasks;
#[cfg(test)]
mod threads;
#[cfg(test)]
mod values_rows;
