//! Compiling patterns into regexes.

ghost use Rattle.std.specs.Prelude.{◌≡◌, true, IfOk, IfErr};
ghost use Rattle.apcu_model.specs.PatternMatches.{FindsAs, is_pattern};
ghost use Rattle.regex.specs.Bytes.{regex_pattern};
ghost use Rattle.row_search.specs.SearchFaults.{IsNoPattern};

use apcu_model::Pattern;
use regex::RegexBuilder;
use regex::bytes::Regex;
use std::alloc::{AllocError, Global};
use thiserror::Error;

/// Why there is no search for a pattern.
#[derive(Error, Clone, Copy, PartialEq, Eq, Debug)]
pub enum SearchFault {
    /// The text is not UTF-8, or is no pattern for `regex`, or one that nests too deep.
    #[error("no pattern")]
    BadPattern,
    /// The text is a pattern, and its maker refuses it.
    #[error("pattern too big")]
    TooBig,
    /// An allocation failed.
    #[error("out of memory")]
    Memory,
}

impl From<AllocError> for SearchFault {
    ghost use Rattle.std.specs.Prelude.{◌≡◌};
    ghost use Rattle.row_search.specs.declared.maker.SearchFault.TheVariants.{Memory};

    ghost from_gives = { λ _ fault. fault ≡ Memory };

    fn from(_: AllocError) -> SearchFault {
        SearchFault::Memory
    }
}

/// Compiles a pattern into a regex.
pub trait Maker {
    ghost use Rattle.std.specs.Prelude.{ℕ, Bool, List};

    /// A pattern with this flag and text may be refused although it is valid.
    ghost may_refuse: { Self → Bool → List ℕ → Type 0 };

    /// A regex that finds something in exactly the keys that the pattern matches.
    ///
    /// Returns `BadPattern` only if the text is no pattern, and `TooBig` only if this maker may
    /// refuse it.
    fn build(&self, alloc: Global, pattern: &Pattern) -> Result<Regex, SearchFault>
        ensures good { IfOk result (λ _. is_pattern pattern.now.fold pattern.now.text ≡ true) }
        ensures finds { IfOk result
            (λ r. FindsAs pattern.now.fold pattern.now.text (regex_pattern r)) }
        ensures bad { IfErr result (λ e. e ≡ SearchFault.BadPattern
            → IsNoPattern pattern.now.fold pattern.now.text) }
        ensures big { IfErr result (λ e. e ≡ SearchFault.TooBig
            → may_refuse self.now pattern.now.fold pattern.now.text) };
}

/// Compiles patterns by `regex`, within its limit on their size.
pub struct RegexMaker;

impl Maker for RegexMaker {
    ghost may_refuse = { λ _ fold text. is_pattern fold text ≡ true };

    fn build(&self, alloc: Global, pattern: &Pattern) -> Result<Regex, SearchFault> {
        let Ok(text) = str::from_utf8(pattern.text.as_slice()) else {
            return Err(SearchFault::BadPattern);
        };
        let builder = RegexBuilder::new(text).case_insensitive(pattern.fold);
        match builder.build_bytes(alloc) {
            Ok(regex) => Ok(regex),
            Err(regex::Error::Syntax(_)) => Err(SearchFault::BadPattern),
            Err(regex::Error::OutOfMemory) => Err(SearchFault::Memory),
            Err(regex::Error::CompiledTooBig) => Err(SearchFault::TooBig),
            Err(regex::Error::Internal) => Err(SearchFault::TooBig),
        }
    }
}

/// Refuses each pattern.
pub struct RefuseAll;

impl Maker for RefuseAll {
    ghost use Rattle.std.specs.Prelude.{⊤};

    ghost may_refuse = { λ _ _ _. ⊤ };

    fn build(&self, _alloc: Global, _pattern: &Pattern) -> Result<Regex, SearchFault> {
        Err(SearchFault::TooBig)
    }
}
