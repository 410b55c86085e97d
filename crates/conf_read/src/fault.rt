//! Why the arguments are not accepted.

use std::alloc::AllocError;
use thiserror::Error;

/// Why the arguments are not accepted.
#[derive(Clone, Copy, Debug, PartialEq, Eq, Error)]
pub enum ConfFault {
    /// The arguments are not those of this program, or an option's value is out of its range.
    #[error("usage")]
    Usage,
    /// There was no memory to read them.
    #[error("out of memory")]
    Memory,
}

impl From<AllocError> for ConfFault {
    ghost use Rattle.std.specs.Prelude.{◌≡◌};
    ghost use Rattle.conf_read.specs.declared.fault.ConfFault.TheVariants.{Memory};

    ghost from_gives = { λ _ e. e ≡ Memory };

    fn from(_e: AllocError) -> ConfFault {
        ConfFault::Memory
    }
}
