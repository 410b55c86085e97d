//! Testing rows by their times and their keys.

ghost use Rattle.std.specs.Prelude.{◌≡◌, IfOk, is_some};
ghost use Rattle.regex.specs.Bytes.{matcher_pattern};
ghost use Rattle.apcu_model.specs.Cache.{Row};
ghost use Rattle.apcu_model.specs.PatternMatches.{FindsAs, key_matches};

use apcu_model::{List, Pattern};
use entry_slots::Head;
use regex::bytes::Matcher;
use std::alloc::Global;
use std::marker::Model;

// A pattern with its matcher.
#[derive(Drop)]
pub struct Live<'r> {
    pub pattern: &'r Pattern,
    pub matcher: Matcher<'r>,
    ghost finds: { FindsAs pattern.now.fold pattern.now.text (matcher_pattern matcher) },
}

// Tests rows for a search; cannot fail. Contracts see which rows are chosen.
#[derive(Drop)]
pub struct RowTest<'r> {
    pub live: Option<Live<'r>>,
    pub list: List,
    pub t: u64,
    pub alloc: Global,
}

impl<'r> Model for RowTest<'r> {
    ghost use Rattle.std.specs.Prelude.{option_map};
    ghost use Rattle.row_search.specs.Choices.{Choice};

    ghost Value = { Choice };

    ghost view = { λ test. record {
      pattern = option_map (λ l. l.pattern.now) test.live;
      list = test.list;
      t = test.t;
    } };
}

impl<'r> RowTest<'r> {
    ghost use Rattle.row_search.specs.Choices.{is_left_out};

    // The allocator for keys that are only tested.
    pub fn alloc(&self) -> Global {
        self.alloc
    }

    // Whether some keys do not match.
    pub fn is_picky(&self) -> bool
        ensures { result ≡ is_some self.now.pattern }
    {
        self.live.is_some()
    }

    // Whether a row with this head is skipped, because it has expired.
    pub fn leaves_out(&self, head: Head) -> bool
        ensures { (row : Row) → head.ttl ≡ row.ttl → head.ctime ≡ row.ctime
            → result ≡ is_left_out self.now row }
    {
        match self.list {
            List::Active => head.is_hard_expired(self.t),
            List::Deleted => false,
        }
    }

    // Whether the key matches.
    pub fn matches(&mut self, key: &[u8]) -> bool
        ensures matches { result ≡ key_matches self.old.pattern key.now }
        ensures same { self.new ≡ self.old }
    {
        match &mut self.live {
            Some(live) => live.matcher.is_match(key),
            None => true,
        }
    }
}
