//! The row of words that all workers share: one writer at a time, passes that carry what each
//! worker has seen, and pinned blocks, from which a worker copies while others write.
//!
//! `PinTable::new` returns the table, the writer's seat (which is put behind a lock), a pass for
//! each worker, and room for those that end. With the seat and a pass a worker begins an event,
//! works on the words as on any segment, and ends the event by one of the calls that begin with
//! `give`. A fetch may end it by pinning the block that it found: the worker then copies the value
//! without the lock. Every step of every worker keeps one rule, which is in `specs/Rule`. No call
//! waits, and only `PinTable::new` allocates memory.
#![tactic(auto)]

mod copying;
mod image;
mod laws;
mod named;
mod pass;
mod passes;
mod rule;
mod table;
mod views;
mod writer;

pub use copying::Copying;
pub use image::{Image, Lent};
pub use laws::rule_laws;
pub use named::TableName;
pub use pass::{Ended, Pass};
pub use passes::{EndedList, Passes};
pub use rule::SharedWords;
pub use table::{PinTable, WriterSeat};
pub use views::{EventLog, Known, Reader, Start, View, WriterState};
pub use writer::{Writer, WriterRest};
