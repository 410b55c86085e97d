//! The effect of a line of a script.

ghost use Rattle.std.specs.Prelude.{◌≡◌};
ghost use Rattle.script_read.specs.Clock.{step_at};

use crate::call::Call;
use crate::script::Step;

/// The effect of a line of a script: it sets the moment of the lines after it, or begins a request,
/// or is a call.
#[derive(Drop)]
pub(crate) enum Effect {
    Sets(u64),
    Begins(u64),
    Calls(Call),
}

/// The moment of a line, and the start of its request, in seconds.
#[derive(Clone, Copy)]
pub(crate) struct Moments {
    pub(crate) t: u64,
    pub(crate) start: u64,
}

impl Moments {
    // A call that is made then.
    pub(crate) fn step(self, call: Call) -> Step
        ensures { result ≡ step_at self call }
    {
        Step {
            t: self.t,
            start: self.start,
            call,
        }
    }
}
