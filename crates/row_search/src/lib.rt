//! Searching rows by key for iterators: the base of apcu_iter.
#![tactic(auto)]

mod entry;
mod maker;
mod row_test;
mod search;

pub use entry::{head_at, item_at};
pub use maker::{Maker, RefuseAll, RegexMaker, SearchFault};
pub use row_test::RowTest;
pub use search::Search;
