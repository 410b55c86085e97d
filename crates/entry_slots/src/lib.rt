//! Entries in the words of a segment: hash chains and the list of removed rows.
#![tactic(auto)]

mod all_rows;
mod beside;
mod copying;
mod expiring;
mod finding;
mod head;
mod keys;
mod laws;
mod looking;
mod lower;
mod reading;
mod removed;
mod slots;
mod spots;
mod standing;
mod writing;

pub use finding::Finder;
pub use head::{ATIME, CTIME, DTIME, HITS, Head, MTIME, NEXT, NUMBER, TTL};
pub use laws::{leaving_laws, place_laws, standing_laws, window_laws};
pub use reading::hard_expired_at;
pub use slots::EntrySlots;
pub use spots::Spot;
