//! How rows are dropped from a segment's entries, and how room is made, while other workers may
//! still copy from their blocks.
#![tactic(auto)]

mod at_once;
mod chains;
mod expired;
mod expunge;
mod laws;
mod places;
mod room;
mod spots;

pub use at_once::expunge_at_once;
pub use chains::{expunge_all, expunge_expired, sweep_chain};
pub use expunge::{drop_row, drop_row_at, is_let_go, sweep_removed};
pub use laws::drop_laws;
pub use places::drop_rows;
pub use room::{make_room, make_room_next};
pub use spots::seek_swept;
