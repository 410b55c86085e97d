//! One worker of many, which plays its script on a shared cache: the events of each call in order,
//! and what each call prints for its own replies.
#![tactic(auto)]

mod answers;
mod calls;
mod chunks;
mod context;
mod ending;
mod events;
mod looks;
mod noting;
mod patterns;
mod pools;
mod scalar;
mod script;
mod searching;
mod walks;

pub use context::Context;
pub use ending::{play_out, play_steps_out};
pub use looks::observe;
pub use script::{Lines, PlayFault, play_lines, play_script};
