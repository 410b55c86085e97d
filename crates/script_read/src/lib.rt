//! Scripts: how they are spelled and read, and what a worker requests next.
#![tactic(auto)]

mod arguments;
mod budgets;
mod call;
mod choices;
mod counters;
mod drawing;
mod effect;
mod fault;
mod fields;
mod generators;
mod information;
mod iterators;
mod keyword;
mod laws;
mod lines;
mod lookups;
mod pool_arguments;
mod pool_box;
mod pools;
mod reading;
mod script;
mod searches;
mod steps;
mod stores;

pub use budgets::{budget, event_count};
pub use call::Call;
pub use drawing::generate;
pub use fault::ScriptFault;
pub use fields::{FIELDS, Field};
pub use laws::{calls_ask_few, readings_are_scripts, scripts_are_ranged, scripts_cross};
pub use pool_box::PoolBox;
pub use reading::read_scripts;
pub use script::{Script, Scripts, Step};
pub use steps::{AsStep, DrawnSteps, ScriptSteps, Steps};
