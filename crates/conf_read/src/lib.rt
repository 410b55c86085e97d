//! What the program's arguments ask for: its options, parsed by clap, and their values.
#![tactic(auto)]

mod command;
mod fault;
mod limits;
mod numbers;
mod options;
mod settings;
mod task;

pub use fault::ConfFault;
pub use limits::limits_are_as_named;
pub use settings::{Settings, read_settings};
pub use task::Task;
