//! The single-threaded cache: the reply to each request, and the cache after it.
#![tactic(auto)]

mod ask;
mod conf;
mod generator;
mod integers;
mod items;
mod journal;
mod keys;
mod laws;
mod limits;
mod pairs;
mod request;
mod row_info;
mod searching;

pub use ask::Ask;
pub use conf::{Clock, Conf, MOST_SEGMENTS, MOST_SLOTS, MOST_USABLE_WORDS, MOST_WORDS};
pub use generator::{Gen, GenKind};
pub use integers::integer;
pub use items::{Chunk, ItemRow, Items};
pub use journal::{Journal, MOST_EVENTS, Mark};
pub use keys::Keys;
pub use laws::{
    count_laws, events_keep, held_alike, numbered, one_event_more, rows_keep_numbers,
    rows_stay_apart, works_alone,
};
pub use limits::{LONGEST_INPUT, MOST_WORKERS};
pub use pairs::Pairs;
pub use request::{Event, Reply, Request, StoreAnswer};
pub use row_info::{Counts, ListedRow, RowInfo};
pub use searching::{Fields, List, Pattern};
