//! Steps, scripts, and a list of scripts.

ghost use Rattle.std.specs.Prelude.{◌≡◌, ℕ, ◌<◌, ◌==◌, ◌++◌, List, [], ◌∷◌, length, is_ok};
ghost use Rattle.std.specs.Prelude.{if◌then◌else◌, slice_get, Some, IfNone};
ghost use Rattle.apcu_model.specs.declared.limits.TheConstants.{MOST_WORKERS};
ghost use Rattle.script_read.specs.declared.script.Step.{Step};
ghost use Rattle.script_read.specs.Calls.{IsInTime, IsRanged};
ghost use Rattle.script_read.specs.Clock.{moment_under};
ghost use Rattle.script_read.specs.GrowingScripts.{grown, last_len};
ghost use Rattle.std.specs.List.{AllByRecursion};
ghost use Rattle.std.specs.Option.{option_to_list};

use crate::call::Call;
use apcu_model::Clock;
use std::alloc::{AllocError, Global};
use std::marker::Model;

/// A call with its moments, in seconds.
#[derive(Drop)]
pub struct Step {
    /// At which it is made: that of the last line `time` or `request` before it, 0 if there is
    /// none.
    pub t: u64,
    /// At which its request began: that of the last line `request` before it, 0 if there is none.
    pub start: u64,
    pub call: Call,
}

impl Step {
    /// The moment that the call has under this clock.
    pub fn moment(&self, clock: Clock) -> u64
        ensures { result ≡ moment_under clock self.now }
    {
        match clock {
            Clock::Line => self.t,
            Clock::Request => self.start,
        }
    }
}

/// What one worker does, in order. Contracts see the list of its steps.
#[derive(Drop)]
pub struct Script {
    steps: Vec<Step>,
}

impl Model for Script {
    ghost use Rattle.std.specs.Prelude.{List, length, ◌<◌, ◌^◌};
    ghost use Rattle.std.specs.List.{AllByRecursion};
    ghost use Rattle.script_read.specs.declared.script.Step.{Step};
    ghost use Rattle.script_read.specs.Calls.{IsInTime, IsRanged};

    ghost Value = { List Step };

    ghost view = { λ s. s.steps.items };

    ghost invariant = { λ s.
        (length s.steps.items < 2 ^ 32) × AllByRecursion IsInTime s.steps.items
        × AllByRecursion IsRanged s.steps.items };
}

impl Script {
    /// A script without steps.
    pub fn new(alloc: Global) -> Script
        ensures { result ≡ [] }
    {
        Script {
            steps: Vec::new(alloc),
        }
    }

    /// Adds a step at the end; without memory the script is unchanged.
    pub fn push(&mut self, step: Step) -> Result<(), AllocError>
        requires moment { IsInTime step }
        requires ranges { IsRanged step }
        requires few { length self.old < 4294967295 }
        ensures { self.new ≡ (if is_ok result then self.old ++ step ∷ [] else self.old) }
    {
        self.steps.push(step)?;
        Ok(())
    }

    /// The number of steps.
    pub fn len(&self) -> u32
        ensures { result ≡ length self.now }
    {
        self.steps.len() as u32
    }

    /// Whether there are none.
    pub fn is_empty(&self) -> bool
        ensures { result ≡ (length self.now == 0) }
    {
        self.steps.is_empty()
    }

    /// A step, counted from 0.
    pub fn at(&self, i: u32) -> &Step
        requires { i < length self.now }
        ensures step { slice_get self.now i ≡ Some result.now }
        ensures moment { IsInTime result.now }
        ensures ranges { IsRanged result.now }
    {
        &self.steps[i as usize]
    }
}

/// The scripts of all workers, that of worker 0 first. Contracts see the list of their lists of
/// steps.
pub struct Scripts {
    scripts: Vec<Script>,
}

impl Drop for Scripts {
    fn drop(self) {
        let Scripts { scripts: _ } = self;
    }
}

impl Model for Scripts {
    ghost use Rattle.std.specs.Prelude.{List, length, ◌≤◌};
    ghost use Rattle.apcu_model.specs.declared.limits.TheConstants.{MOST_WORKERS};
    ghost use Rattle.script_read.specs.declared.script.Step.{Step};

    ghost Value = { List (List Step) };

    ghost view = { λ s. s.scripts.items };

    ghost invariant = { λ s. length s.scripts.items ≤ MOST_WORKERS };
}

impl Scripts {
    /// No scripts.
    pub fn new(alloc: Global) -> Scripts
        ensures { result ≡ [] }
    {
        Scripts {
            scripts: Vec::new(alloc),
        }
    }

    /// The number of scripts.
    pub fn len(&self) -> u32
        ensures { result ≡ length self.now }
    {
        self.scripts.len() as u32
    }

    /// Whether there are none.
    pub fn is_empty(&self) -> bool
        ensures { result ≡ (length self.now == 0) }
    {
        self.scripts.is_empty()
    }

    /// The script of a worker.
    pub fn at(&self, worker: u32) -> &Script
        requires { worker < length self.now }
        ensures { slice_get self.now worker ≡ Some result.now }
    {
        &self.scripts[worker as usize]
    }

    /// Removes the last script, and returns it.
    pub fn pop(&mut self) -> Option<Script>
        ensures last { self.old ≡ self.new ++ option_to_list result }
        ensures none { IfNone result (self.old ≡ []) }
    {
        self.scripts.pop()
    }

    /// The script of one more worker; without memory the scripts are unchanged.
    pub fn push(&mut self, script: Script) -> Result<(), AllocError>
        requires { length self.old < MOST_WORKERS }
        ensures { self.new ≡ (if is_ok result then self.old ++ script ∷ [] else self.old) }
    {
        self.scripts.push(script)?;
        Ok(())
    }

    // The script of one more worker begins; without memory the scripts are unchanged.
    pub(crate) fn begin(&mut self, alloc: Global) -> Result<(), AllocError>
        requires { length self.old < MOST_WORKERS }
        ensures { self.new ≡ (if is_ok result then self.old ++ [] ∷ [] else self.old) }
    {
        self.scripts.push(Script::new(alloc))?;
        Ok(())
    }

    // The last script gets one more step; without memory it is unchanged.
    pub(crate) fn add(&mut self, step: Step) -> Result<(), AllocError>
        requires moment { IsInTime step }
        requires ranges { IsRanged step }
        requires some { 0 < length self.old }
        requires few { last_len self.old < 4294967295 }
        ensures { self.new ≡ (if is_ok result then grown self.old step else self.old) }
    {
        let last = self.scripts.len() - 1;
        self.scripts[last].push(step)
    }
}
