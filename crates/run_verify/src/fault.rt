//! Why there is no verdict.

ghost use Rattle.std.specs.Prelude.{◌≡◌, ◌≢◌};
ghost use Rattle.row_search.specs.declared.maker.SearchFault.TheVariants as searching;
ghost use Rattle.run_verify.specs.declared.fault.VerifyFault.TheVariants.{Memory, Pattern};

use row_search::SearchFault;
use std::alloc::AllocError;

/// Why an output was not judged.
#[derive(Clone, Copy, Debug, PartialEq, Eq)]
pub enum VerifyFault {
    /// There was not enough memory.
    Memory,
    /// The pattern of a search is invalid, or its maker refused it.
    Pattern,
}

impl From<AllocError> for VerifyFault {
    ghost from_gives = { λ _ e. e ≡ Memory };

    fn from(_e: AllocError) -> VerifyFault {
        VerifyFault::Memory
    }
}

impl From<SearchFault> for VerifyFault {
    ghost from_gives = { λ fault e. e ≡ Pattern → fault ≢ searching.Memory };

    fn from(fault: SearchFault) -> VerifyFault {
        match fault {
            SearchFault::BadPattern | SearchFault::TooBig => VerifyFault::Pattern,
            SearchFault::Memory => VerifyFault::Memory,
        }
    }
}
