//! The arguments of lines: values, and their conversions.

ghost use Rattle.std.specs.Prelude.{◌≡◌, ℕ, ◌≤◌, ◌<◌, false, List, [], ◌∷◌, length, pos, Ok, Err};
ghost use Rattle.std.specs.Prelude.{IfOk, IfErr, IfSome, IfNone};
ghost use Rattle.php_graph.specs.declared.kind.Kind.TheVariants.{Str};
ghost use Rattle.notation.specs.Marks.{fail};
ghost use Rattle.notation.specs.Reading.{reading_of};
ghost use Rattle.notation.specs.Plain.{begins_string};
ghost use Rattle.apcu_model.specs.declared.searching.List.TheVariants.{Active};
ghost use Rattle.script_read.specs.Calls.{last_moment, most_items};
ghost use Rattle.script_read.specs.Arguments.{any_value, key, integer, truth, null, ttl_in, moment};
ghost use Rattle.script_read.specs.Arguments.{asked_of, stored, search_for, fields, all_fields};
ghost use Rattle.script_read.specs.Arguments.{chunk_size, which_list};
ghost use Rattle.script_read.specs.Table.{usual_size};
ghost use Rattle.script_read.specs.Reading.{space_at, end_at, one_more_at, ends_here, choice_at};
ghost use Rattle.script_read.specs.Reading.{argument_at, optional_at, numbers_at};
ghost use Rattle.script_read.specs.Gives.{GivesItem, Stops};

use crate::choices::{
    Asked, Stored, asked_of, integer_of, is_null, moment_of, stored_of, truth_of, ttl_of,
};
use crate::fault::Stop;
use crate::searches::{chunk_size_of, fields_of, list_of, search_of};
use apcu_model::{Fields, List as RowList, Pattern};
use notation::{Cursor, Fault, ReadFault, Reason, read_integer, read_string, read_value};
use php_graph::{Bytes, Graph};
use std::alloc::Global;

// The fault that begins with these bytes.
pub(crate) fn fault(reason: Reason, bytes: &[u8]) -> Stop
    ensures { GivesItem {X = ℕ} {Y = ℕ} (λ x. x) (Err result) (fail reason bytes.now) }
{
    Stop::Fault(Fault {
        reason,
        left: bytes.len(),
    })
}

// A space before an expected argument.
#[tactic(auto, unfolding(crate::specs::Reading::space_at))]
pub(crate) fn space(bytes: &[u8]) -> Result<&[u8], Stop>
    ensures read { GivesItem (λ rest. rest.now) result (space_at bytes.now) }
    ensures fewer { IfOk result (λ rest. length rest.now < length bytes.now) }
{
    match bytes {
        [] => Err(fault(Reason::End, bytes)),
        [b' ', rest @ ..] => Ok(rest),
        [b'\n', ..] => Err(fault(Reason::Argument, bytes)),
        [_, ..] => Err(fault(Reason::Separator, bytes)),
    }
}

// The end of a line.
#[tactic(auto, unfolding(crate::specs::Reading::end_at))]
pub(crate) fn end(bytes: &[u8]) -> Result<&[u8], Stop>
    ensures read { GivesItem (λ rest. rest.now) result (end_at bytes.now) }
    ensures fewer { IfOk result (λ rest. length rest.now < length bytes.now) }
{
    match bytes {
        [] => Err(fault(Reason::End, bytes)),
        [b'\n', rest @ ..] => Ok(rest),
        [b' ', rest @ ..] => Err(one_more(rest)),
        [_, ..] => Err(fault(Reason::Separator, bytes)),
    }
}

fn one_more(bytes: &[u8]) -> Stop
    ensures { GivesItem {X = List ℕ} {Y = List ℕ} (λ x. x) (Err result) (one_more_at bytes.now) }
{
    if bytes.is_empty() {
        fault(Reason::End, bytes)
    } else {
        fault(Reason::Argument, bytes)
    }
}

pub(crate) fn ends_here(bytes: &[u8]) -> bool
    ensures { result ≡ ends_here bytes.now }
{
    match bytes {
        [] => false,
        [b, ..] => *b == b'\n',
    }
}

// A value in the notation.
pub(crate) fn value(alloc: Global, bytes: &[u8]) -> Result<(Graph, &[u8]), Stop>
    ensures read { GivesItem (λ x. (x.0, x.1.now)) result (reading_of bytes.now) }
    ensures no_more { IfOk result (λ x. length x.1.now ≤ length bytes.now) }
{
    let mut from = Cursor::new(bytes);
    match read_value(alloc, &mut from) {
        Ok(graph) => Ok((graph, &bytes[from.place() as usize..])),
        Err(ReadFault::Bad { place, reason }) => Err(Stop::Fault(Fault {
            reason,
            left: bytes.len() - place as usize,
        })),
        Err(ReadFault::Memory) => Err(Stop::Memory),
    }
}

// The string that begins there; nothing if none does. No graph is made of it.
fn string_in(alloc: Global, bytes: &[u8]) -> Result<Option<(Bytes, &[u8])>, Stop>
    ensures found { IfOk result (λ read. IfSome read (λ x.
        reading_of bytes.now ≡ Ok (Str x.0 ∷ [], x.1.now))) }
    ensures fewer { IfOk result (λ read. IfSome read (λ x. length x.1.now < length bytes.now)) }
    ensures other { IfOk result (λ read. IfNone read (begins_string bytes.now ≡ false)) }
    ensures fault { IfErr result (λ e. Stops e (reading_of bytes.now)) }
{
    match read_string(bytes) {
        Ok(Some((text, rest))) => Ok(Some((Bytes::of(alloc, text)?, rest))),
        Ok(None) => Ok(None),
        Err(fault) => Err(Stop::Fault(fault)),
    }
}

// The integer that a value is, and what follows the value.
fn number_in(alloc: Global, bytes: &[u8]) -> Result<(Option<i64>, &[u8]), Stop>
    ensures read { GivesItem (λ x. (x.0, x.1.now)) result (numbers_at bytes.now) }
    ensures no_more { IfOk result (λ x. length x.1.now ≤ length bytes.now) }
{
    match read_integer(bytes) {
        Ok(Some((number, rest))) => Ok((Some(number), rest)),
        Ok(None) => {
            let (graph, rest) = value(alloc, bytes)?;
            Ok((integer_of(&graph), rest))
        }
        Err(fault) => Err(Stop::Fault(fault)),
    }
}

// Any value.
pub(crate) fn value_argument(alloc: Global, bytes: &[u8]) -> Result<(Graph, &[u8]), Stop>
    ensures read { GivesItem (λ x. (x.0, x.1.now)) result (argument_at any_value bytes.now) }
    ensures fewer { IfOk result (λ x. length x.1.now < length bytes.now) }
{
    let argument = space(bytes)?;
    value(alloc, argument)
}

// One key, after the space before it.
pub(crate) fn key_choice(alloc: Global, argument: &[u8]) -> Result<(Bytes, &[u8]), Stop>
    ensures read { GivesItem (λ x. (x.0, x.1.now)) result (choice_at key argument.now) }
    ensures no_more { IfOk result (λ x. length x.1.now ≤ length argument.now) }
{
    if let Some((key, rest)) = string_in(alloc, argument)? {
        return Ok((key, rest));
    }
    let (graph, rest) = value(alloc, argument)?;
    match graph.into_string() {
        Ok(key) => Ok((key, rest)),
        Err(_) => Err(fault(Reason::Argument, argument)),
    }
}

// One key.
pub(crate) fn key_argument(alloc: Global, bytes: &[u8]) -> Result<(Bytes, &[u8]), Stop>
    ensures read { GivesItem (λ x. (x.0, x.1.now)) result (argument_at key bytes.now) }
    ensures fewer { IfOk result (λ x. length x.1.now < length bytes.now) }
{
    let argument = space(bytes)?;
    key_choice(alloc, argument)
}

// An integer.
pub(crate) fn integer_argument(alloc: Global, bytes: &[u8]) -> Result<(i64, &[u8]), Stop>
    ensures read { GivesItem (λ x. (x.0, x.1.now)) result (argument_at integer bytes.now) }
    ensures fewer { IfOk result (λ x. length x.1.now < length bytes.now) }
{
    let argument = space(bytes)?;
    let (number, rest) = number_in(alloc, argument)?;
    match number {
        Some(n) => Ok((n, rest)),
        None => Err(fault(Reason::Argument, argument)),
    }
}

// A step, or 1 if the line ends.
pub(crate) fn step_argument(alloc: Global, bytes: &[u8]) -> Result<(i64, &[u8]), Stop>
    ensures read { GivesItem (λ x. (x.0, x.1.now)) result (optional_at (pos 1) integer bytes.now) }
    ensures no_more { IfOk result (λ x. length x.1.now ≤ length bytes.now) }
{
    if ends_here(bytes) {
        return Ok((1, bytes));
    }
    integer_argument(alloc, bytes)
}

// One key, or an array of keys.
pub(crate) fn asked_argument(alloc: Global, bytes: &[u8]) -> Result<(Asked, &[u8]), Stop>
    ensures read { GivesItem (λ x. (x.0, x.1.now)) result (argument_at asked_of bytes.now) }
    ensures fewer { IfOk result (λ x. length x.1.now < length bytes.now) }
{
    let argument = space(bytes)?;
    if let Some((key, rest)) = string_in(alloc, argument)? {
        return Ok((Asked::One(key), rest));
    }
    let (graph, rest) = value(alloc, argument)?;
    match asked_of(alloc, graph)? {
        Some(asked) => Ok((asked, rest)),
        None => Err(fault(Reason::Argument, argument)),
    }
}

// One key, or an array of keys with their values.
pub(crate) fn stored_argument(alloc: Global, bytes: &[u8]) -> Result<(Stored, &[u8]), Stop>
    ensures read { GivesItem (λ x. (x.0, x.1.now)) result (argument_at stored bytes.now) }
    ensures fewer { IfOk result (λ x. length x.1.now < length bytes.now) }
{
    let argument = space(bytes)?;
    if let Some((key, rest)) = string_in(alloc, argument)? {
        return Ok((Stored::One(key), rest));
    }
    let (graph, rest) = value(alloc, argument)?;
    match stored_of(alloc, graph)? {
        Some(stored) => Ok((stored, rest)),
        None => Err(fault(Reason::Argument, argument)),
    }
}

// A moment.
pub(crate) fn moment_argument(alloc: Global, bytes: &[u8]) -> Result<(u64, &[u8]), Stop>
    ensures read { GivesItem (λ x. (x.0, x.1.now)) result (argument_at moment bytes.now) }
    ensures fewer { IfOk result (λ x. length x.1.now < length bytes.now) }
    ensures soon { IfOk result (λ x. x.0 ≤ last_moment) }
{
    let argument = space(bytes)?;
    let (number, rest) = number_in(alloc, argument)?;
    match moment_of(number) {
        Some(t) => Ok((t, rest)),
        None => Err(fault(Reason::Argument, argument)),
    }
}

// A ttl, after the space before it.
pub(crate) fn ttl_choice(alloc: Global, argument: &[u8]) -> Result<(u32, &[u8]), Stop>
    ensures read { GivesItem (λ x. (x.0, x.1.now)) result (choice_at ttl_in argument.now) }
    ensures no_more { IfOk result (λ x. length x.1.now ≤ length argument.now) }
{
    let (number, rest) = number_in(alloc, argument)?;
    match ttl_of(number) {
        Some(ttl) => Ok((ttl, rest)),
        None => Err(fault(Reason::Argument, argument)),
    }
}

// A ttl, or 0 if the line ends.
pub(crate) fn ttl_argument(alloc: Global, bytes: &[u8]) -> Result<(u32, &[u8]), Stop>
    ensures read { GivesItem (λ x. (x.0, x.1.now)) result (optional_at 0 ttl_in bytes.now) }
    ensures no_more { IfOk result (λ x. length x.1.now ≤ length bytes.now) }
{
    if ends_here(bytes) {
        return Ok((0, bytes));
    }
    let argument = space(bytes)?;
    ttl_choice(alloc, argument)
}

// A boolean, or false if the line ends.
pub(crate) fn truth_argument(alloc: Global, bytes: &[u8]) -> Result<(bool, &[u8]), Stop>
    ensures read { GivesItem (λ x. (x.0, x.1.now)) result (optional_at false truth bytes.now) }
    ensures no_more { IfOk result (λ x. length x.1.now ≤ length bytes.now) }
{
    if ends_here(bytes) {
        return Ok((false, bytes));
    }
    let argument = space(bytes)?;
    let (graph, rest) = value(alloc, argument)?;
    match truth_of(&graph) {
        Some(truth) => Ok((truth, rest)),
        None => Err(fault(Reason::Argument, argument)),
    }
}

// A null, or the end of the line.
pub(crate) fn null_argument(alloc: Global, bytes: &[u8]) -> Result<&[u8], Stop>
    ensures read { GivesItem (λ rest. (tt, rest.now)) result (optional_at tt null bytes.now) }
    ensures no_more { IfOk result (λ rest. length rest.now ≤ length bytes.now) }
{
    if ends_here(bytes) {
        return Ok(bytes);
    }
    let argument = space(bytes)?;
    let (graph, rest) = value(alloc, argument)?;
    if is_null(&graph) {
        Ok(rest)
    } else {
        Err(fault(Reason::Argument, argument))
    }
}

// The keys of a search.
pub(crate) fn search_argument(alloc: Global, bytes: &[u8]) -> Result<(Option<Pattern>, &[u8]), Stop>
    ensures read { GivesItem (λ x. (x.0, x.1.now)) result (argument_at search_for bytes.now) }
    ensures fewer { IfOk result (λ x. length x.1.now < length bytes.now) }
{
    let argument = space(bytes)?;
    let (graph, rest) = value(alloc, argument)?;
    match search_of(alloc, &graph)? {
        Some(search) => Ok((search, rest)),
        None => Err(fault(Reason::Argument, argument)),
    }
}

// Fields, or all of them if the line ends.
pub(crate) fn fields_argument(alloc: Global, bytes: &[u8]) -> Result<(Fields, &[u8]), Stop>
    ensures read { GivesItem (λ x. (x.0, x.1.now)) result
        (optional_at all_fields fields bytes.now) }
    ensures no_more { IfOk result (λ x. length x.1.now ≤ length bytes.now) }
{
    if ends_here(bytes) {
        return Ok((Fields(511), bytes));
    }
    let argument = space(bytes)?;
    let (graph, rest) = value(alloc, argument)?;
    match fields_of(&graph) {
        Some(fields) => Ok((fields, rest)),
        None => Err(fault(Reason::Argument, argument)),
    }
}

// The least number of items of a step; 100 if the line ends.
pub(crate) fn size_argument(alloc: Global, bytes: &[u8]) -> Result<(u32, &[u8]), Stop>
    ensures read { GivesItem (λ x. (x.0, x.1.now)) result
        (optional_at usual_size chunk_size bytes.now) }
    ensures no_more { IfOk result (λ x. length x.1.now ≤ length bytes.now) }
    ensures some { IfOk result (λ x. 0 < x.0) }
    ensures few { IfOk result (λ x. x.0 ≤ most_items) }
{
    if ends_here(bytes) {
        return Ok((100, bytes));
    }
    let argument = space(bytes)?;
    let (graph, rest) = value(alloc, argument)?;
    match chunk_size_of(&graph) {
        Some(size) => Ok((size, rest)),
        None => Err(fault(Reason::Argument, argument)),
    }
}

// A list, or the active rows if the line ends.
pub(crate) fn list_argument(alloc: Global, bytes: &[u8]) -> Result<(RowList, &[u8]), Stop>
    ensures read { GivesItem (λ x. (x.0, x.1.now)) result
        (optional_at Active which_list bytes.now) }
    ensures no_more { IfOk result (λ x. length x.1.now ≤ length bytes.now) }
{
    if ends_here(bytes) {
        return Ok((RowList::Active, bytes));
    }
    let argument = space(bytes)?;
    let (graph, rest) = value(alloc, argument)?;
    match list_of(&graph) {
        Some(list) => Ok((list, rest)),
        None => Err(fault(Reason::Argument, argument)),
    }
}
