//! Graphs that are made place by place: arrays of named numbers, and lists of such arrays.

ghost use Rattle.std.specs.Prelude.{◌≡◌, ℕ, ◌+◌, ◌*◌, ◌^◌, ◌≤◌, ◌<◌, true, [], ◌∷◌, ◌++◌};
ghost use Rattle.std.specs.Prelude.{length, map};
ghost use Rattle.std.specs.Prelude.{sum_by, nat_lt, pos, IfOk, OnOk, OnErr};
ghost use Rattle.std.specs.List.{list_all};
ghost use Rattle.php_graph.specs.declared.key.Key.TheVariants as keys;
ghost use Rattle.php_graph.specs.declared.child.Child.TheVariants.{Own};
ghost use Rattle.php_graph.specs.declared.kind.Kind.TheVariants as kinds;
ghost use Rattle.php_graph.specs.Size.{cells_of};
ghost use Rattle.apcu_model.specs.Infos.{number_kind};
ghost use Rattle.apcu_model.specs.InfoGraphs.{IsTellable, sized_members, stepped_end};
ghost use Rattle.apcu_model.specs.InfoGraphs.{number_places, single_members, stepped_members};

use php_graph::{Bytes, Child, Graph, Key, Kind, MOST_VALUES, Members, Place};
use seg_words::words_in;
use std::alloc::{AllocError, Global};
use std::marker::Model;

// Places so far. The first is separate, as a graph keeps it. Contracts see what is at them.
pub(crate) struct Telling {
    first: Kind,
    others: Vec<Place>,
    // The length of their image.
    words: u64,
}

impl Drop for Telling {
    fn drop(self) {
        let Telling {
            first: _,
            others: _,
            words: _,
        } = self;
    }
}

impl Model for Telling {
    ghost use Rattle.std.specs.Prelude.{List, ◌∷◌};
    ghost use Rattle.php_graph.specs.declared.kind.Kind.{Kind};
    ghost use Rattle.php_graph.specs.PlaceOffsets.{kinds_at};
    ghost use Rattle.apcu_model.specs.InfoGraphs.{IsLaidOut};

    ghost Value = { List Kind };

    ghost view = { λ a. a.first ∷ kinds_at a.others.items };

    ghost invariant = { λ a. IsLaidOut a.first a.others.items a.words };
}

impl Telling {
    // The first place, whose image has this many words.
    pub(crate) fn new(alloc: Global, first: Kind, cells: u64) -> Telling
        requires cells { cells ≡ cells_of first }
        requires small { cells ≤ 2 ^ 34 }
        ensures { result ≡ first ∷ [] }
    {
        Telling {
            first,
            others: Vec::new(alloc),
            words: cells,
        }
    }

    // The number of places.
    pub(crate) fn len(&self) -> u32
        ensures len { result ≡ length self.now }
        ensures few { result ≤ 2 ^ 24 }
    {
        self.others.len() as u32 + 1
    }

    // One more place, whose image has this many words.
    pub(crate) fn push(&mut self, kind: Kind, cells: u64) -> Result<(), AllocError>
        requires cells { cells ≡ cells_of kind }
        requires small { cells ≤ 2 ^ 34 }
        ensures { OnOk result (self.new ≡ self.old ++ kind ∷ []) }
    {
        if self.len() >= MOST_VALUES {
            return Err(AllocError);
        }
        self.others.push(Place {
            kind,
            at: self.words,
        })?;
        self.words += cells;
        Ok(())
    }

    // Numbers; one from 2^63 on becomes the maximum of 64 bits.
    pub(crate) fn push_numbers(&mut self, numbers: &[u64]) -> Result<(), AllocError>
        ensures { OnOk result (self.new ≡ self.old ++ map number_kind numbers.now) }
    {
        if numbers.len() > (MOST_VALUES - self.len()) as usize {
            return Err(AllocError);
        }
        push_places(&mut self.others, self.words, numbers)?;
        self.words += 2 * numbers.len() as u64;
        Ok(())
    }

    // Reserves room for this many more places, so that they are not moved while they are added.
    pub(crate) fn reserve(&mut self, places: usize) -> Result<(), AllocError>
        ensures { self.new ≡ self.old }
    {
        self.others.reserve(places)
    }

    // A string.
    pub(crate) fn push_string(&mut self, bytes: Bytes) -> Result<(), AllocError>
        ensures { OnOk result (self.new ≡ self.old ++ kinds.Str bytes ∷ []) }
    {
        let cells = 1 + u64::from(words_in(bytes.as_slice().len() as u32));
        self.push(Kind::Str(bytes), cells)
    }

    // The graph of these places.
    pub(crate) fn finish(self) -> Graph
        requires { IsTellable self }
        ensures { result ≡ self }
    {
        let Telling {
            first,
            others,
            words,
        } = self;
        Graph::from_places(first, others, words)
    }
}

// The places of these numbers after the others, of which an image has the first one at `at`. The
// room for all is reserved once.
fn push_places(others: &mut Vec<Place>, at: u64, numbers: &[u64]) -> Result<(), AllocError>
    requires { at + 2 * length numbers.now < 2 ^ 64 }
    ensures ok { OnOk result
        (others.new.items ≡ others.old.items ++ number_places at numbers.now) }
    ensures err { OnErr result (others.new.items ≡ others.old.items) }
{
    others.reserve(numbers.len())?;
    let mut at = at;
    for n in numbers {
        others.push_reserved(Place {
            kind: number(*n),
            at,
        });
        at += 2;
    }
    Ok(())
}

// A number; from 2^63 on it becomes the maximum of 64 bits.
fn number(n: u64) -> Kind
    ensures { result ≡ number_kind n }
{
    let most = i64::MAX.cast_unsigned();
    Kind::Int(n.min(most).cast_signed())
}

// An array with these names, whose values have this many places each and begin at `place`; and how
// many words its own place has in an image.
pub(crate) fn array_of(
    alloc: Global,
    fields: &[(&[u8], u32)],
    place: u32,
) -> Result<(Kind, u64), AllocError>
    requires few { length fields.now < 2 ^ 8 }
    requires short { list_all (λ f. nat_lt (length f.0.now) (2 ^ 8)) fields.now ≡ true }
    requires room { place + sum_by (λ f. f.1) fields.now < 2 ^ 32 }
    ensures kind { IfOk result (λ r. r.0 ≡ kinds.Array (sized_members place fields.now)) }
    ensures cells { IfOk result (λ r. r.1 ≡ cells_of r.0) }
    ensures small { IfOk result (λ r. r.1 ≤ 2 ^ 34) }
{
    let mut items = Vec::with_capacity(alloc, fields.len())?;
    let mut next = place;
    let mut cells = 1;
    for field in fields {
        let key = Key::Str(Bytes::of(alloc, field.0)?);
        items.push((key, Child::Own(next)))?;
        next += field.1;
        cells += 2 + u64::from(words_in(field.0.len() as u32));
    }
    Ok((Kind::Array(Members::from_vec(items)), cells))
}

// The keys of these names, of which arrays are to have copies; and how many words the place of such
// an array has in an image.
pub(crate) fn keys_of(alloc: Global, names: &[&[u8]]) -> Result<(Vec<Key>, u64), AllocError>
    requires few { length names.now < 2 ^ 8 }
    requires short { list_all (λ name. nat_lt (length name.now) (2 ^ 8)) names.now ≡ true }
    ensures keys { IfOk result (λ r. r.0.items ≡ map (λ name. keys.Str name.now) names.now) }
    ensures cells { (place : ℕ) → IfOk result (λ r. r.1
        ≡ cells_of (kinds.Array (single_members place (map (λ n. keys.Str n.now) names.now)))) }
    ensures small { IfOk result (λ r. r.1 ≤ 2 ^ 34) }
{
    let mut keys = Vec::with_capacity(alloc, names.len())?;
    let mut cells = 1;
    for name in names {
        keys.push(Key::Str(Bytes::of(alloc, name)?))?;
        cells += 2 + u64::from(words_in(name.len() as u32));
    }
    Ok((keys, cells))
}

// An array under copies of these keys, whose values have a place each and begin at `place`.
pub(crate) fn array_by(alloc: Global, names: &[Key], place: u32) -> Result<Kind, AllocError>
    requires few { length names.now < 2 ^ 8 }
    requires room { place + length names.now < 2 ^ 32 }
    ensures { IfOk result (λ kind. kind ≡ kinds.Array (single_members place names.now)) }
{
    let mut items = Vec::with_capacity(alloc, names.len())?;
    let mut next = place;
    for key in names {
        let copy = match key {
            Key::Int(n) => Key::Int(*n),
            Key::Str(bytes) => Key::Str(Bytes::of(alloc, bytes.as_slice())?),
        };
        items.push((copy, Child::Own(next)))?;
        next += 1;
    }
    Ok(Kind::Array(Members::from_vec(items)))
}

// The member of a list under this key, whose value begins at `place`.
pub(crate) fn item(i: u32, place: u32) -> (Key, Child)
    ensures { result ≡ (keys.Int (pos i), Own place) }
{
    (Key::Int(i64::from(i)), Child::Own(place))
}

// A list of this many values, which have `step` places each and begin at `place`; and how many
// words its own place has in an image.
pub(crate) fn list_of(
    alloc: Global,
    count: u32,
    step: u32,
    place: u32,
) -> Result<(Kind, u64), AllocError>
    requires few { count ≤ 2 ^ 24 }
    requires room { stepped_end place step count < 2 ^ 32 }
    ensures kind { IfOk result (λ r. r.0 ≡ kinds.Array (stepped_members place 0 step count)) }
    ensures cells { IfOk result (λ r. r.1 ≡ cells_of r.0) }
    ensures small { IfOk result (λ r. r.1 ≤ 2 ^ 34) }
{
    let mut items = Vec::with_capacity(alloc, count as usize)?;
    let mut next = place;
    for i in 0..count {
        items.push(item(i, next))?;
        next += step;
    }
    let kind = Kind::Array(Members::from_vec(items));
    Ok((kind, 1 + 3 * u64::from(count)))
}
