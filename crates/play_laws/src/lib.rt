//! Laws of the play of many workers: the requests and replies of each worker in a history of
//! events, and that such a history is the play of its journal; what an iterator returns step by
//! step, whatever is done to the cache between; the sum of increments on a key; and that every play
//! of generated scripts has the same summary.
#![tactic(auto)]

mod counting;
mod laws;
mod walks;

pub use counting::{counters_count, generated_wishes, looks_come_last, summaries_agree};
pub use laws::{histories_are_plays, one_event_own};
pub use walks::{
    calls_are_walks, steps_of_walks, walks_give_once, walks_in_histories, walks_in_journals,
};
