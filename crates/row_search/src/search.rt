//! Searches for keys by a pattern.

ghost use Rattle.std.specs.Prelude.{◌≡◌, IfOk, IfErr};
ghost use Rattle.regex.specs.Bytes.{regex_pattern};
ghost use Rattle.apcu_model.specs.Asking.{pattern_lent};
ghost use Rattle.apcu_model.specs.PatternMatches.{FindsAs};
ghost use Rattle.row_search.specs.SearchFaults.{IsNoPattern, OfPattern};

use crate::maker::{Maker, SearchFault};
use crate::row_test::{Live, RowTest};
use apcu_model::{List, Pattern};
use php_graph::Bytes;
use regex::bytes::Regex;
use std::alloc::{AllocError, Global};
use std::marker::Model;

// A pattern with its regex.
#[derive(Drop)]
pub struct Needle {
    pattern: Pattern,
    regex: Regex,
    ghost finds: { FindsAs pattern.fold pattern.text (regex_pattern regex) },
}

/// A search for the keys that a pattern matches, or for every key. Contracts see the pattern.
pub struct Search {
    // A regex is large, and a search is passed by value even if it has none.
    needle: Option<Box<Needle>>,
    alloc: Global,
}

impl Drop for Search {
    fn drop(self) {
        let Search {
            needle: _,
            alloc: _,
        } = self;
    }
}

impl Model for Search {
    ghost use Rattle.std.specs.Prelude.{Option, option_map};
    ghost use Rattle.apcu_model.specs.declared.searching.Pattern.{Pattern};

    ghost Value = { Option Pattern };

    ghost view = { λ s. option_map (λ n. n.value.pattern) s.needle };
}

// The same text, with the same flag.
fn copy_of(alloc: Global, pattern: &Pattern) -> Result<Pattern, AllocError>
    ensures { IfOk result (λ p. p ≡ pattern.now) }
{
    Ok(Pattern {
        text: Bytes::of(alloc, pattern.text.as_slice())?,
        fold: pattern.fold,
    })
}

fn boxed(alloc: Global, needle: Needle) -> Result<Box<Needle>, AllocError>
    ensures { IfOk result (λ n. n.value ≡ needle) }
{
    Ok(Box::new(alloc, needle)?)
}

fn built<M: Maker>(alloc: Global, maker: &M, pattern: &Pattern) -> Result<Box<Needle>, SearchFault>
    ensures made { IfOk result (λ n. n.value.pattern ≡ pattern.now) }
    ensures bad { IfErr result (λ e. e ≡ SearchFault.BadPattern
        → IsNoPattern pattern.now.fold pattern.now.text) }
    ensures big { IfErr result (λ e. e ≡ SearchFault.TooBig
        → M.may_refuse maker.now pattern.now.fold pattern.now.text) }
{
    let regex = maker.build(alloc, pattern)?;
    let pattern = copy_of(alloc, pattern)?;
    Ok(boxed(alloc, Needle { pattern, regex })?)
}

impl Search {
    ghost use Rattle.row_search.specs.Choices.{Choice};

    /// A search for the pattern or, without one, for every key. It keeps a copy of the pattern, and
    /// the allocator, from which matching takes its memory.
    ///
    /// Returns `BadPattern` only if the text is no pattern, and `TooBig` only if the maker may
    /// refuse it.
    pub fn new<M: Maker>(
        alloc: Global,
        maker: &M,
        pattern: Option<&Pattern>,
    ) -> Result<Search, SearchFault>
        ensures made { IfOk result (λ s. s ≡ pattern_lent pattern.entry) }
        ensures bad { IfErr result (λ e. e ≡ SearchFault.BadPattern
            → OfPattern IsNoPattern (pattern_lent pattern.entry)) }
        ensures big { IfErr result (λ e. e ≡ SearchFault.TooBig
            → OfPattern (M.may_refuse maker.now) (pattern_lent pattern.entry)) }
    {
        let needle = match pattern {
            Some(pattern) => Some(built(alloc, maker, pattern)?),
            None => None,
        };
        Ok(Search { needle, alloc })
    }

    /// The pattern that it was made with.
    pub fn pattern(&self) -> Option<&Pattern>
        ensures { pattern_lent result ≡ self.now }
    {
        match &self.needle {
            Some(needle) => Some(&needle.pattern),
            None => None,
        }
    }

    // A test of the rows of a list at the moment t. It makes one matcher for all of them.
    pub fn test(&self, list: List, t: u64) -> Result<RowTest<'_>, AllocError>
        ensures { IfOk result (λ test. test ≡ record { pattern = self.now; list = list; t = t }) }
    {
        let live = match &self.needle {
            Some(needle) => Some(Live {
                pattern: &needle.pattern,
                matcher: needle.regex.matcher(self.alloc)?,
            }),
            None => None,
        };
        Ok(RowTest {
            live,
            list,
            t,
            alloc: self.alloc,
        })
    }
}
