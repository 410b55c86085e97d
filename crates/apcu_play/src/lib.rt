//! One run of the program: it plays scripts of apcu calls, and prints what each call returns and
//! the order in which they took effect; or it plays scripts that are made from a number, and prints
//! their summary; or it judges an output.
#![tactic(auto)]

mod answering;
mod ending;
mod journal;
mod judging;
mod messages;
mod play;
mod printing;
mod reading;
mod running;
mod status;
mod summary;

pub use messages::tell;
pub use running::run;
pub use status::Status;
