//! Steps, one after the other.

ghost use Rattle.std.specs.Prelude.{◌≡◌, ◌<◌, ◌≤◌, ◌∷◌, ℕ, List, IfOk, OnErr, Some, length};
ghost use Rattle.std.specs.Prelude.{slice_get};
ghost use Rattle.script_read.specs.declared.script.Step.{Step};
ghost use Rattle.script_read.specs.Calls.{IsRanged};
ghost use Rattle.script_read.specs.GeneratedScripts.{generated};

use crate::drawing::{call_of, state_after};
use crate::script::{Script, Step};
use std::alloc::{AllocError, Global};
use std::marker::Model;

/// A step, or a reference to one.
pub trait AsStep {
    ghost use Rattle.script_read.specs.declared.script.Step.{Step};

    ghost step: { Self → Step };

    /// The step.
    fn as_step(&self) -> &Step
        ensures { result.now ≡ step self.now };
}

impl AsStep for Step {
    ghost step = { λ s. s };

    fn as_step(&self) -> &Step {
        self
    }
}

impl AsStep for &Step {
    ghost step = { λ s. s.now };

    fn as_step(&self) -> &Step {
        self
    }
}

/// The steps of a worker, one after the other.
pub trait Steps {
    ghost use Rattle.std.specs.Prelude.{List};
    ghost use Rattle.script_read.specs.declared.script.Step.{Step};

    type Taken: AsStep + Drop;

    // Those that are still to come.
    ghost to_come: { Self → List Step };

    /// The number of steps to come.
    fn len(&self) -> u32
        ensures { result ≡ length (to_come self.now) };

    /// Takes the first one. Without memory all are still to come.
    fn next(&mut self, alloc: Global) -> Result<Self::Taken, AllocError>
        requires { 0 < length (to_come self.old) }
        ensures first { IfOk result (λ taken.
            to_come self.old ≡ Self.Taken.step taken ∷ to_come self.new) }
        ensures ranges { IfOk result (λ taken. IsRanged (Self.Taken.step taken)) }
        ensures same { OnErr result (to_come self.new ≡ to_come self.old) };
}

/// The last steps of a script. Contracts see their list.
#[derive(Drop)]
pub struct ScriptSteps<'a> {
    script: &'a Script,
    // Their number.
    left: u32,
}

impl<'a> Model for ScriptSteps<'a> {
    ghost use Rattle.std.specs.Prelude.{List, ◌-◌, ◌≤◌, drop, length};
    ghost use Rattle.script_read.specs.declared.script.Step.{Step};

    ghost Value = { List Step };

    ghost view = { λ s. drop (length s.script.now - s.left) s.script.now };

    ghost invariant = { λ s. s.left ≤ length s.script.now };
}

impl<'a> ScriptSteps<'a> {
    /// All steps of a script.
    pub fn of(script: &'a Script) -> ScriptSteps<'a>
        ensures { result ≡ script.now }
    {
        ScriptSteps {
            script,
            left: script.len(),
        }
    }
}

impl<'a> Steps for ScriptSteps<'a> {
    type Taken = &'a Step;

    ghost to_come = { λ s. s };

    fn len(&self) -> u32 {
        self.left
    }

    fn next(&mut self, _alloc: Global) -> Result<&'a Step, AllocError> {
        let step = self.script.at(self.script.len() - self.left);
        self.left -= 1;
        Ok(step)
    }
}

/// Steps that are made from a number, each when it is taken. Contracts see the list of those that
/// are still to come.
#[derive(Drop)]
pub struct DrawnSteps {
    worker: u64,
    workers: u64,
    // The number of steps to come.
    left: u32,
    // The state after the last draw.
    state: u64,
    // Reused for all keys that are made.
    text: Vec<u8>,
}

impl Model for DrawnSteps {
    ghost use Rattle.std.specs.Prelude.{List, ◌<◌};
    ghost use Rattle.script_read.specs.declared.script.Step.{Step};
    ghost use Rattle.script_read.specs.GeneratedScripts.{draws_from, steps_of_draws};

    ghost Value = { List Step };

    ghost view = { λ s. steps_of_draws s.worker (draws_from s.workers s.left s.state) };

    ghost invariant = { λ s. 0 < s.workers };
}

impl DrawnSteps {
    /// Those that `generate` makes of these numbers for a worker.
    pub fn of(alloc: Global, seed: u64, workers: u32, calls: u32, worker: u32) -> DrawnSteps
        requires { worker < workers }
        ensures { slice_get (generated seed workers calls) worker ≡ Some result }
    {
        let worker = u64::from(worker);
        DrawnSteps {
            worker,
            workers: u64::from(workers),
            left: calls,
            state: seed.wrapping_add(worker),
            text: Vec::new(alloc),
        }
    }
}

impl Steps for DrawnSteps {
    type Taken = Step;

    ghost to_come = { λ s. s };

    fn len(&self) -> u32 {
        self.left
    }

    fn next(&mut self, alloc: Global) -> Result<Step, AllocError> {
        let state = state_after(self.state);
        let call = call_of(
            alloc,
            &mut self.text,
            self.worker,
            self.workers,
            state >> 33,
        )?;
        self.left -= 1;
        self.state = state;
        Ok(Step {
            t: 0,
            start: 0,
            call,
        })
    }
}
