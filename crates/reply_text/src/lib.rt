//! What calls of a script print for their replies, in serialize notation; and that an output
//! determines its journal.
#![tactic(auto)]

mod fields;
mod laws;
mod notes;
mod pools;
mod rendering;
mod replies;
mod reply_list;
mod several;
mod single;
mod value;
mod walks;

pub use laws::outputs_tell_journals;
pub use notes::Notes;
pub use rendering::render;
pub use replies::{
    write_each, write_fetched, write_flag, write_flags, write_gave, write_info, write_number,
    write_numbered, write_totals, write_values,
};
pub use reply_list::Replies;
pub use value::Value;
pub use walks::write_walk;
