//! One event.

ghost use Rattle.std.specs.Prelude.{◌≡◌, ◌≢◌, ℕ, ◌+◌, ◌<◌, ◌^◌, List, [], ◌∷◌, length, None};
ghost use Rattle.std.specs.Prelude.{◌≤◌, true, false, slice_set};
ghost use Rattle.php_graph.specs.declared.kind.Kind.TheVariants.{Str};
ghost use Rattle.std.specs.Int.{w64, cast_signed};
ghost use Rattle.apcu_model.specs.declared.request.Request.TheVariants as requests;
ghost use Rattle.apcu_model.specs.declared.request.Reply.TheVariants as replies;
ghost use Rattle.apcu_model.specs.Sequential.{is_stored};
ghost use Rattle.apcu_model.specs.SlotOrder.{slot_of};
ghost use Rattle.counter_entry.specs.Numbers.{reply_of};
ghost use Rattle.apcu_model.specs.Cache.{Row};
ghost use Rattle.seg_words.specs.Blocks.{image_place};
ghost use Rattle.cache_core.specs.Looking.{scalar_of, IsRowOf};
ghost use Rattle.cache_core.specs.CoreCache.{cache_of};
ghost use Rattle.cache_c.specs.Standing.{StandsForCache, LeavesHeld, StandsUnchanged, BeginsEvent};
ghost use Rattle.cache_c.specs.Standing.{cache_words, seats_of, words_memory};
ghost use Rattle.cache_c.specs.Asked.{asked_for, request_of, store_if_value, value_of};
ghost use Rattle.cache_c.specs.Asked.{scalar_value};
ghost use Rattle.cache_c.specs.Asked.{IsAnswered, IsDone, IsToldBy, IsValueBy, IsScalarBy};
ghost use Rattle.cache_c.specs.Asked.{KeepsSeats, HasLetGo, IsBlockOf, MayAsk};
ghost use Rattle.cache_c.specs.Asked.{plain_answer};

use crate::cache::Cache;
use crate::seat_words::SEATS;
use crate::values::{BOOL, INT, NULL, STR, scalar_from};
use apcu_model::StoreAnswer;
use cache_core::{Look, Scalar};
use counter_entry::{IncAnswer, cas_in, inc_in};
use seg_words::{HEAD_WORDS, words_in};

/// A request to a cache.
#[repr(C)]
#[derive(Clone, Copy)]
pub struct Ask {
    /// The number of the request.
    pub kind: u32,
    /// The kind of the value that is stored.
    pub value: u32,
    /// In seconds; 0 is no limit.
    pub ttl: u32,
    /// The second of the call.
    pub t: u64,
    /// The 64 bits of an integer: the value's number, the step of a counter, what a
    /// compare-and-swap expects, or a seat.
    pub number: u64,
    /// Those of what a compare-and-swap sets, or the least length in bytes of a string for which
    /// the seat is taken.
    pub set: u64,
    /// The hash of the key, as PHP computes it.
    pub hash: u64,
}

/// The answer of a cache.
#[repr(C)]
#[derive(Clone, Copy)]
pub struct Answer {
    /// The number of the answer.
    pub kind: u32,
    /// The place of a string's bytes.
    pub place: u32,
    /// The number of an integer; 0 or 1 of a boolean.
    pub number: i64,
    /// How many bytes a string has.
    pub len: u64,
}

/// `apcu_store` of one key.
pub const STORE: u32 = 0;
/// `apcu_add` of one key.
pub const ADD: u32 = 1;
/// `apcu_fetch` of one key.
pub const LOOK: u32 = 2;
/// `apcu_exists` of one key.
pub const EXISTS: u32 = 3;
/// `apcu_delete` of one key.
pub const DELETE: u32 = 4;
/// `apcu_inc`, or `apcu_dec` by a negated step.
pub const COUNT: u32 = 5;
/// `apcu_cas`.
pub const SWAP: u32 = 6;
/// `apcu_clear_cache`.
pub const CLEAR: u32 = 7;
/// `apcu_fetch` of one key, and a seat holds the row of a string of many bytes.
pub const HOLD: u32 = 8;

// A value's answers are NULL, BOOL, INT and STR.
/// A value of another kind.
pub const OTHER: u32 = 4;
/// No live row has the key.
pub const ABSENT: u32 = 5;
/// It was not done, or it is false.
pub const NO: u32 = 6;
/// It was done, or it is true.
pub const YES: u32 = 7;
/// Nothing was counted.
pub const NO_NUMBER: u32 = 8;
/// No event took place: the request or the value is of no kind.
pub const BAD: u32 = 9;
/// No event took place: the key or the string has 4 GB or more.
pub const TOO_LONG: u32 = 10;

// An answer without numbers.
pub(crate) fn plain(kind: u32) -> Answer
    ensures { result ≡ plain_answer kind }
{
    Answer {
        kind,
        place: 0,
        number: 0,
        len: 0,
    }
}

// The kind of the answer whether it was done.
fn flag(done: bool) -> u32
    ensures { (words : List ℕ) → IsToldBy words (replies.Flag done) (plain_answer result) }
{
    if done { YES } else { NO }
}

// The answer for a scalar.
pub(crate) fn scalar(value: Scalar) -> Answer
    ensures { IsScalarBy value result }
{
    match value {
        Scalar::Null => plain(NULL),
        Scalar::Bool(truth) => Answer {
            kind: BOOL,
            place: 0,
            number: i64::from(truth),
            len: 0,
        },
        Scalar::Int(number) => Answer {
            kind: INT,
            place: 0,
            number,
            len: 0,
        },
    }
}

// The answer of counting.
fn counted(answer: IncAnswer) -> Answer
    ensures { (words : List ℕ) → IsToldBy words (reply_of answer) result }
{
    match answer {
        IncAnswer::Value(number) => Answer {
            kind: INT,
            place: 0,
            number,
            len: 0,
        },
        IncAnswer::NotInteger | IncAnswer::NoRoom => plain(NO_NUMBER),
    }
}

// That of the answer whether a value was stored.
fn stored(answer: StoreAnswer) -> u32
    ensures { (words : List ℕ) → IsToldBy words (replies.Flag (is_stored answer))
        (plain_answer result) }
{
    match answer {
        StoreAnswer::Stored => YES,
        StoreAnswer::TooLarge | StoreAnswer::Exists | StoreAnswer::NoRoom => NO,
    }
}

// Whether a seat is taken for this answer: there is one of this number, and the answer is a string
// of at least `least` bytes.
fn is_long(answer: &Answer, seat: u64, least: u64) -> bool
    ensures yes { result ≡ true → (seat < 64) × (answer.now.kind ≡ STR)
        × (least ≤ answer.now.len) }
    ensures no { result ≡ false → seat < 64 → answer.now.kind ≡ STR
        → least ≤ answer.now.len → ⊥ }
{
    if seat >= 64 {
        return false;
    }
    if answer.kind != STR {
        return false;
    }
    answer.len >= least
}

impl Cache {
    /// One event: the request, its key, and the bytes of the value that is stored. What a seat
    /// holds does not move, except for the seat that a `HOLD` takes.
    pub(crate) fn ask(&mut self, ask: &Ask, key: &[u8], bytes: &[u8]) -> Answer
        requires may { MayAsk self.old ask.now key.now }
        ensures stand { StandsForCache self.new }
        ensures answered { IsAnswered self.old self.new ask.now.t
            (asked_for ask.now key.now bytes.now) result }
        ensures seats { KeepsSeats ask.now self.old self.new result }
    {
        if key.len() >= 4_294_967_296 || bytes.len() >= 4_294_967_296 {
            return plain(TOO_LONG);
        }
        let slot = self.core.slot_of_hash(ask.hash);
        if ask.kind == HOLD {
            return self.hold(key, slot, ask.number, ask.set, ask.t);
        }
        self.answer(ask, key, slot, bytes)
    }

    // One event that takes no seat. Here and below `slot` is that of the key.
    fn answer(&mut self, ask: &Ask, key: &[u8], slot: u32, bytes: &[u8]) -> Answer
        requires short { length key.now < 2 ^ 32 }
        requires slot { slot ≡ slot_of self.old.core.conf key.now }
        requires value { length bytes.now < 2 ^ 32 }
        requires other { ask.now.kind ≢ HOLD }
        requires stand { StandsForCache self.old }
        ensures left { LeavesHeld self.old self.new }
        ensures answered { IsAnswered self.old self.new ask.now.t
            (request_of ask.now key.now bytes.now) result }
    {
        let t = ask.t;
        let ttl = ask.ttl;
        let number = ask.number;
        // An answer without numbers is made once, after all kinds of requests.
        let kind = match ask.kind {
            LOOK => return self.look(key, slot, t).0,
            COUNT => return self.count(key, slot, number, ttl, t),
            STORE => self.store(key, slot, ask.value, number, bytes, ttl, false, t),
            ADD => self.store(key, slot, ask.value, number, bytes, ttl, true, t),
            EXISTS => self.exists(key, slot, t),
            DELETE => self.delete(key, slot, t),
            SWAP => self.swap(key, slot, number, ask.set, t),
            CLEAR => self.clear(t),
            _ => BAD,
        };
        plain(kind)
    }

    // Begins an event that may drop rows.
    fn begin(&mut self)
        requires stand { StandsForCache self.old }
        ensures begun { BeginsEvent self.old self.new }
    {
        self.words.begin();
    }

    // Stores a value of this kind under the key.
    fn store(
        &mut self,
        key: &[u8],
        slot: u32,
        kind: u32,
        number: u64,
        bytes: &[u8],
        ttl: u32,
        exclusive: bool,
        t: u64,
    ) -> u32
        requires short { length key.now < 2 ^ 32 }
        requires slot { slot ≡ slot_of self.old.core.conf key.now }
        requires value { length bytes.now < 2 ^ 32 }
        requires stand { StandsForCache self.old }
        ensures left { LeavesHeld self.old self.new }
        ensures answered { IsAnswered self.old self.new t
            (store_if_value key.now ttl exclusive (value_of kind number bytes.now))
            (plain_answer result) }
    {
        if kind == STR {
            return self.store_text(key, slot, bytes, ttl, exclusive, t);
        }
        self.store_scalar(key, slot, kind, number, ttl, exclusive, t)
    }

    // The same for a string: its bytes are copied from the slice into the row.
    fn store_text(
        &mut self,
        key: &[u8],
        slot: u32,
        bytes: &[u8],
        ttl: u32,
        exclusive: bool,
        t: u64,
    ) -> u32
        requires short { length key.now < 2 ^ 32 }
        requires slot { slot ≡ slot_of self.old.core.conf key.now }
        requires value { length bytes.now < 2 ^ 32 }
        requires stand { StandsForCache self.old }
        ensures left { LeavesHeld self.old self.new }
        ensures done { IsDone self.old self.new t
            (requests.Store key.now (Str bytes.now ∷ []) ttl exclusive) (plain_answer result) }
    {
        self.begin();
        stored(
            self.core
                .store_bytes_in(&mut self.words, key, slot, bytes, ttl, exclusive, t),
        )
    }

    // The same for a scalar, if the kind is one's.
    fn store_scalar(
        &mut self,
        key: &[u8],
        slot: u32,
        kind: u32,
        number: u64,
        ttl: u32,
        exclusive: bool,
        t: u64,
    ) -> u32
        requires short { length key.now < 2 ^ 32 }
        requires slot { slot ≡ slot_of self.old.core.conf key.now }
        requires stand { StandsForCache self.old }
        ensures left { LeavesHeld self.old self.new }
        ensures answered { IsAnswered self.old self.new t
            (store_if_value key.now ttl exclusive (scalar_value kind number))
            (plain_answer result) }
    {
        let Some(value) = scalar_from(kind, number) else {
            return BAD;
        };
        self.begin();
        let answer = self
            .core
            .store_content(&mut self.words, key, slot, &value, ttl, exclusive, t);
        stored(answer)
    }

    // Looks the key up, and counts it. Also returns the place of the row that it finds, if that
    // holds no scalar, otherwise 0.
    fn look(&mut self, key: &[u8], slot: u32, t: u64) -> (Answer, u32)
        requires short { length key.now < 2 ^ 32 }
        requires slot { slot ≡ slot_of self.old.core.conf key.now }
        requires stand { StandsForCache self.old }
        ensures left { LeavesHeld self.old self.new }
        ensures done { IsDone self.old self.new t (requests.Fetch key.now) result.0 }
        ensures block { 0 < result.1 → IsBlockOf self.new result.1 result.0 }
        ensures text { result.0.kind ≡ STR → 0 < result.1 }
    {
        match self.core.look_in(&mut self.words, key, slot, t) {
            Look::Miss => (plain(ABSENT), 0),
            Look::Scalar(value) => (scalar(value), 0),
            Look::Hit(at) => (self.other(key, at), at),
        }
    }

    // The same. If the answer is a string of at least `least` bytes, the seat holds its row from
    // now on.
    fn hold(&mut self, key: &[u8], slot: u32, seat: u64, least: u64, t: u64) -> Answer
        requires short { length key.now < 2 ^ 32 }
        requires slot { slot ≡ slot_of self.old.core.conf key.now }
        requires stand { StandsForCache self.old }
        ensures stand { StandsForCache self.new }
        ensures done { IsDone self.old self.new t (requests.Fetch key.now) result }
        ensures seats { (ask : Ask) → ask.kind ≡ HOLD → ask.number ≡ seat → ask.set ≡ least
            → KeepsSeats ask self.old self.new result }
    {
        let (answer, at) = self.look(key, slot, t);
        if !is_long(&answer, seat, least) {
            return answer;
        }
        self.sit(seat as u32, at, &answer);
        answer
    }

    // The seat holds the block at a place from now on, which contains the string of this answer.
    fn sit(&mut self, seat: u32, at: u32, _answer: &Answer)
        requires seat { seat < 64 }
        requires stand { StandsForCache self.old }
        requires place { 0 < at }
        requires text { _answer.now.kind ≡ STR }
        requires block { IsBlockOf self.old at _answer.now }
        ensures stand { StandsForCache self.new }
        ensures core { self.new.core ≡ self.old.core }
        ensures words { cache_words self.new ≡ cache_words self.old }
        ensures memory { words_memory self.new ≡ words_memory self.old }
        ensures seats { seats_of self.new ≡ slice_set (seats_of self.old) seat at }
    {
        self.words.hold(seat, at);
    }

    /// Releases a seat, which holds nothing from now on. Returns false if there is none of this
    /// number.
    pub(crate) fn let_go(&mut self, seat: u32) -> bool
        requires stand { StandsForCache self.old }
        ensures stand { StandsForCache self.new }
        ensures free { HasLetGo self.old self.new seat result }
    {
        if seat >= SEATS {
            return false;
        }
        self.words.hold(seat, 0);
        true
    }

    // Whether a look-up finds the key.
    fn exists(&mut self, key: &[u8], slot: u32, t: u64) -> u32
        requires short { length key.now < 2 ^ 32 }
        requires slot { slot ≡ slot_of self.old.core.conf key.now }
        requires stand { StandsForCache self.old }
        ensures left { LeavesHeld self.old self.new }
        ensures done { IsDone self.old self.new t (requests.Exists key.now) (plain_answer result) }
    {
        flag(self.core.exists_in(&mut self.words, key, slot, t))
    }

    // Deletes the row of the key.
    fn delete(&mut self, key: &[u8], slot: u32, t: u64) -> u32
        requires short { length key.now < 2 ^ 32 }
        requires slot { slot ≡ slot_of self.old.core.conf key.now }
        requires stand { StandsForCache self.old }
        ensures left { LeavesHeld self.old self.new }
        ensures done { IsDone self.old self.new t (requests.Delete key.now) (plain_answer result) }
    {
        self.begin();
        flag(self.core.delete_in(&mut self.words, key, slot, t))
    }

    // Counts by the step.
    fn count(&mut self, key: &[u8], slot: u32, step: u64, ttl: u32, t: u64) -> Answer
        requires short { length key.now < 2 ^ 32 }
        requires slot { slot ≡ slot_of self.old.core.conf key.now }
        requires stand { StandsForCache self.old }
        ensures left { LeavesHeld self.old self.new }
        ensures done { IsDone self.old self.new t
            (requests.Inc key.now (cast_signed w64 step) ttl) result }
    {
        let step = step.cast_signed();
        self.begin();
        let answer = inc_in(
            self.alloc,
            &mut self.core,
            &mut self.words,
            key,
            slot,
            step,
            ttl,
            t,
        );
        counted(answer)
    }

    // Sets the integer if it is the expected one.
    fn swap(&mut self, key: &[u8], slot: u32, expect: u64, set: u64, t: u64) -> u32
        requires short { length key.now < 2 ^ 32 }
        requires slot { slot ≡ slot_of self.old.core.conf key.now }
        requires stand { StandsForCache self.old }
        ensures left { LeavesHeld self.old self.new }
        ensures done { IsDone self.old self.new t
            (requests.Cas key.now (cast_signed w64 expect) (cast_signed w64 set))
            (plain_answer result) }
    {
        let expect = expect.cast_signed();
        let set = set.cast_signed();
        self.begin();
        flag(cas_in(&mut self.core, &mut self.words, key, slot, expect, set, t))
    }

    // Drops all rows.
    fn clear(&mut self, t: u64) -> u32
        requires stand { StandsForCache self.old }
        ensures left { LeavesHeld self.old self.new }
        ensures done { IsDone self.old self.new t requests.Clear (plain_answer result) }
    {
        self.begin();
        self.core.clear(&mut self.words, t);
        YES
    }

    // The answer for the row of the key, which is at this place and holds no scalar.
    fn other(&mut self, key: &[u8], at: u32) -> Answer
        requires short { length key.now < 2 ^ 32 }
        requires stand { StandsForCache self.old }
        requires there { (row : Row) × IsRowOf (cache_of self.old.core) key.now at row }
        ensures same { StandsUnchanged self.old self.new }
        ensures told { (row : Row) → IsRowOf (cache_of self.old.core) key.now at row
            → scalar_of row.graph ≡ None → IsValueBy (cache_words self.new) row.graph result }
        ensures place { result.kind ≡ STR
            → result.place ≡ image_place (cache_words self.new) at + 1 }
        ensures positive { 0 < at }
    {
        let image = at + HEAD_WORDS + words_in(key.len() as u32);
        self.text(image)
    }
}
