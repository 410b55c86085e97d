//! What the seats of the table know. No value of these types is made: they exist in proofs alone.

use apcu_model::Event;
use std::collections::LinkedList;

/// What a worker's pass knows: the worker, how many events it has left, the history that it has
/// seen, and its own events.
pub struct Known {
    pub worker: u64,
    pub left: u64,
    pub seen: LinkedList<Event>,
    pub own: LinkedList<Event>,
}

/// What the writer knows of the workers: all events so far, the pass that it holds during an event,
/// how many workers were made, how many events each may make, and the passes taken in at the end.
pub struct EventLog {
    pub history: LinkedList<Event>,
    pub hand: Option<Known>,
    pub made: u64,
    pub budgets: LinkedList<u64>,
    pub closed: LinkedList<Known>,
}

/// What a worker that copies from a pinned block knows: the block's place, that of the value's
/// image, and the words of the image as they were at the pin.
pub struct Reader {
    pub known: Known,
    pub block: u64,
    pub first: u64,
    pub content: LinkedList<u64>,
}

/// What the writer knows. A window of 0 names no block.
pub struct WriterState {
    /// The words, with 0 at each pin count.
    pub words: LinkedList<u64>,
    pub log: EventLog,
    /// For each worker the block from which it may still copy.
    pub windows: LinkedList<u64>,
    /// The windows when the current event began.
    pub begun: LinkedList<u64>,
    /// The workers that this event's probes have found, a bit each.
    pub mask: u64,
    /// The probes of this event: the block, and the pin count that a load found there.
    pub readings: LinkedList<(u64, u64)>,
    /// The block that is being pinned, or 0. It is 0 between any two calls.
    pub pinning: u64,
}

/// What a seat knows.
pub enum View {
    Writer(WriterState),
    Idle(Known),
    Copying(Reader),
    /// A pass that the writer has taken: nothing is known of it.
    Spent,
}

/// The arguments with which the table is made.
#[derive(Drop)]
pub struct Start {
    pub words: Vec<u64>,
    pub budgets: Vec<u32>,
}
