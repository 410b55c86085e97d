//! Why scripts were not read.

ghost use Rattle.std.specs.Prelude.{◌≡◌};
ghost use Rattle.script_read.specs.declared.fault.Stop.TheVariants.{Memory};

use notation::{Fault, Reason};
use std::alloc::{AllocError, AllocFailed};
use thiserror::Error;

/// Why scripts were not read.
#[derive(Debug, Drop, Error)]
pub enum ScriptFault {
    /// The bytes spell no scripts: the first fault from the left, and the place of its byte, from
    /// 0.
    #[error("byte {place}: {reason}")]
    Bad { place: u64, reason: Reason },
    /// There was no memory for the scripts.
    #[error("out of memory")]
    Memory,
}

// Why reading stopped.
#[derive(Drop)]
pub(crate) enum Stop {
    Memory,
    Fault(Fault),
}

impl From<AllocError> for Stop {
    ghost from_gives = { λ _ e. e ≡ Memory };

    fn from(_e: AllocError) -> Stop {
        Stop::Memory
    }
}

impl<T: Drop> From<AllocFailed<T>> for Stop {
    ghost from_gives = { λ _ e. e ≡ Memory };

    fn from(_e: AllocFailed<T>) -> Stop {
        Stop::Memory
    }
}
