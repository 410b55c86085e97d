//! The items of a value, each read and put into the graph that is being built.

ghost use Rattle.std.specs.Prelude.{◌≡◌, ◌<◌, ◌^◌, ◌∷◌, List, drop, IsSome, length, IsTrue, OnOk};
ghost use Rattle.std.specs.Prelude.{IfOk, None, Some, Bool, true, false};
ghost use Rattle.php_graph.specs.declared.item.Wants.TheVariants.{Value};
ghost use Rattle.php_graph.specs.Graph.{levels};
ghost use Rattle.php_graph.specs.Building.{wants_of, item_fits, is_value, is_name, pushed};
ghost use Rattle.php_graph.specs.Building.{room_fault};
ghost use Rattle.notation.specs.Marks.{Gives};
ghost use Rattle.notation.specs.Reading.{reason_of, put_at, null_at, truth_at, int_at, str_at};
ghost use Rattle.notation.specs.Reading.{same_at, back_at, array_at, object_at, tagged_at, is_tag};
ghost use Rattle.notation.specs.Reading.{begun_at, key_tagged_at, takes_integers, key_at};
ghost use Rattle.notation.specs.Reading.{closed_at};
ghost use Rattle.notation.specs.Steps.{opens, opened_count, IsValueStep, wants_key};

use crate::fault::{Reason, Stop};
use crate::tokens::{count, fault_at, integer, mark, natural, sized, string, truth};
use php_graph::{BuildFault, Builder, Bytes, Item, Key, Wants};
use std::alloc::Global;

fn reason(fault: BuildFault) -> Reason
    ensures { result ≡ reason_of fault }
{
    match fault {
        BuildFault::Memory => Reason::End,
        BuildFault::TooDeep => Reason::Depth,
        BuildFault::TooManyPlaces => Reason::Places,
        BuildFault::BadNumber => Reason::Target,
        BuildFault::RepeatedKey => Reason::Repeat,
        BuildFault::BadClass => Reason::Class,
        BuildFault::IntegerText => Reason::Integer,
    }
}

// One more item. If it is wrong, the fault is at these remaining bytes.
fn put(builder: &mut Builder, item: Item, at: &[u8]) -> Result<(), Stop>
    requires { IsTrue (item_fits (wants_of builder.old) item) }
    ensures read { Gives (λ u. builder.new) result (put_at builder.old item at.now) }
    ensures value { OnOk result (is_value item ≡ true
        → IsValueStep builder.old builder.new (opens item)) }
{
    match builder.push(item) {
        Ok(()) => Ok(()),
        Err(BuildFault::Memory) => Err(Stop::Memory),
        Err(fault) => Err(Stop::Fault(fault_at(reason(fault), at))),
    }
}

#[tactic(auto, unfolding(crate::specs::Reading::null_at))]
fn null<'a>(builder: &mut Builder, bytes: &'a [u8]) -> Result<(Option<u32>, &'a [u8]), Stop>
    requires { wants_of builder.old ≡ Value }
    ensures read { Gives (λ x. (builder.new, x.0, x.1.now)) result (null_at builder.old bytes.now) }
    ensures step { IfOk result (λ x. IsValueStep builder.old builder.new (opened_count x.0)) }
    ensures less { IfOk result (λ x. length x.1.now < length bytes.now) }
{
    let rest = mark(b';', bytes)?;
    put(builder, Item::Null, bytes)?;
    Ok((None, rest))
}

#[tactic(auto, unfolding(crate::specs::Reading::truth_at))]
fn truth_value<'a>(builder: &mut Builder, bytes: &'a [u8]) -> Result<(Option<u32>, &'a [u8]), Stop>
    requires { wants_of builder.old ≡ Value }
    ensures read { Gives (λ x. (builder.new, x.0, x.1.now)) result
        (truth_at builder.old bytes.now) }
    ensures step { IfOk result (λ x. IsValueStep builder.old builder.new (opened_count x.0)) }
    ensures less { IfOk result (λ x. length x.1.now < length bytes.now) }
{
    let number = mark(b':', bytes)?;
    let (b, rest) = truth(number)?;
    let rest = mark(b';', rest)?;
    put(builder, Item::Bool(b), bytes)?;
    Ok((None, rest))
}

#[tactic(auto, unfolding(crate::specs::Reading::int_at))]
fn int<'a>(builder: &mut Builder, bytes: &'a [u8]) -> Result<(Option<u32>, &'a [u8]), Stop>
    requires { wants_of builder.old ≡ Value }
    ensures read { Gives (λ x. (builder.new, x.0, x.1.now)) result (int_at builder.old bytes.now) }
    ensures step { IfOk result (λ x. IsValueStep builder.old builder.new (opened_count x.0)) }
    ensures less { IfOk result (λ x. length x.1.now < length bytes.now) }
{
    let (n, rest) = integer(bytes)?;
    put(builder, Item::Int(n), bytes)?;
    Ok((None, rest))
}

#[tactic(auto, unfolding(crate::specs::Reading::str_at))]
fn str<'a>(
    alloc: Global,
    builder: &mut Builder,
    bytes: &'a [u8],
) -> Result<(Option<u32>, &'a [u8]), Stop>
    requires { wants_of builder.old ≡ Value }
    ensures read { Gives (λ x. (builder.new, x.0, x.1.now)) result (str_at builder.old bytes.now) }
    ensures step { IfOk result (λ x. IsValueStep builder.old builder.new (opened_count x.0)) }
    ensures less { IfOk result (λ x. length x.1.now < length bytes.now) }
{
    let (text, rest) = string(bytes)?;
    let text = Bytes::of(alloc, text)?;
    put(builder, Item::Str(text), bytes)?;
    Ok((None, rest))
}

#[tactic(auto, unfolding(crate::specs::Reading::same_at))]
fn same<'a>(builder: &mut Builder, bytes: &'a [u8]) -> Result<(Option<u32>, &'a [u8]), Stop>
    requires { wants_of builder.old ≡ Value }
    ensures read { Gives (λ x. (builder.new, x.0, x.1.now)) result (same_at builder.old bytes.now) }
    ensures step { IfOk result (λ x. IsValueStep builder.old builder.new (opened_count x.0)) }
    ensures less { IfOk result (λ x. length x.1.now < length bytes.now) }
{
    let number = mark(b':', bytes)?;
    let (k, rest) = natural(number)?;
    let rest = mark(b';', rest)?;
    put(builder, Item::Same(k), number)?;
    Ok((None, rest))
}

#[tactic(auto, unfolding(crate::specs::Reading::back_at))]
fn back<'a>(builder: &mut Builder, bytes: &'a [u8]) -> Result<(Option<u32>, &'a [u8]), Stop>
    requires { wants_of builder.old ≡ Value }
    ensures read { Gives (λ x. (builder.new, x.0, x.1.now)) result (back_at builder.old bytes.now) }
    ensures step { IfOk result (λ x. IsValueStep builder.old builder.new (opened_count x.0)) }
    ensures less { IfOk result (λ x. length x.1.now < length bytes.now) }
{
    let number = mark(b':', bytes)?;
    let (k, rest) = natural(number)?;
    let rest = mark(b';', rest)?;
    put(builder, Item::Back(k), number)?;
    Ok((None, rest))
}

#[tactic(auto, unfolding(crate::specs::Reading::array_at))]
fn array<'a>(builder: &mut Builder, bytes: &'a [u8]) -> Result<(Option<u32>, &'a [u8]), Stop>
    requires { wants_of builder.old ≡ Value }
    ensures read { Gives (λ x. (builder.new, x.0, x.1.now)) result
        (array_at builder.old bytes.now) }
    ensures step { IfOk result (λ x. IsValueStep builder.old builder.new (opened_count x.0)) }
    ensures less { IfOk result (λ x. length x.1.now < length bytes.now) }
{
    let (n, rest) = count(bytes)?;
    put(builder, Item::OpenArray, bytes)?;
    Ok((Some(n), rest))
}

#[tactic(auto, unfolding(crate::specs::Reading::object_at))]
fn object<'a>(
    alloc: Global,
    builder: &mut Builder,
    at: &[u8],
    bytes: &'a [u8],
) -> Result<(Option<u32>, &'a [u8]), Stop>
    requires { wants_of builder.old ≡ Value }
    ensures read { Gives (λ x. (builder.new, x.0, x.1.now)) result
        (object_at builder.old at.now bytes.now) }
    ensures step { IfOk result (λ x. IsValueStep builder.old builder.new (opened_count x.0)) }
    ensures less { IfOk result (λ x. length x.1.now < length bytes.now) }
{
    let (class, rest) = sized(bytes)?;
    let class = Bytes::of(alloc, class)?;
    put(builder, Item::OpenObject(class), at)?;
    let (n, rest) = count(rest)?;
    Ok((Some(n), rest))
}

#[tactic(auto, unfolding(crate::specs::Reading::tagged_at))]
fn tagged<'a>(
    alloc: Global,
    builder: &mut Builder,
    tag: u8,
    bytes: &'a [u8],
    rest: &'a [u8],
) -> Result<(Option<u32>, &'a [u8]), Stop>
    requires wants { wants_of builder.old ≡ Value }
    requires tagged { is_tag tag ≡ true }
    requires split { bytes.now ≡ tag ∷ rest.now }
    ensures read { Gives (λ x. (builder.new, x.0, x.1.now)) result
        (tagged_at builder.old tag rest.now) }
    ensures step { IfOk result (λ x. IsValueStep builder.old builder.new (opened_count x.0)) }
    ensures less { IfOk result (λ x. length x.1.now < length bytes.now) }
{
    match tag {
        b'N' => null(builder, rest),
        b'b' => truth_value(builder, rest),
        b'i' => int(builder, rest),
        b's' => str(alloc, builder, rest),
        b'a' => array(builder, rest),
        b'O' => object(alloc, builder, bytes, rest),
        b'r' => same(builder, rest),
        _ => back(builder, rest),
    }
}

fn is_value_tag(b: u8) -> bool
    ensures { result ≡ is_tag b }
{
    b == b'N'
        || (b == b'b'
            || (b == b'i' || (b == b's' || (b == b'a' || (b == b'O' || (b == b'r' || b == b'R'))))))
}

// A value up to its members, and their number if it is a container.
#[tactic(auto, unfolding(crate::specs::Reading::begun_at))]
pub(crate) fn begun<'a>(
    alloc: Global,
    builder: &mut Builder,
    bytes: &'a [u8],
) -> Result<(Option<u32>, &'a [u8]), Stop>
    requires { wants_of builder.old ≡ Value }
    ensures read { Gives (λ x. (builder.new, x.0, x.1.now)) result
        (begun_at builder.old bytes.now) }
    ensures step { IfOk result (λ x. IsValueStep builder.old builder.new (opened_count x.0)) }
    ensures room { IfOk result (λ x. length builder.old.containers < levels) }
    ensures less { IfOk result (λ x. length x.1.now < length bytes.now) }
{
    match bytes {
        [] => Err(Stop::Fault(fault_at(Reason::End, bytes))),
        [tag, rest @ ..] => {
            if !is_value_tag(*tag) {
                return Err(Stop::Fault(fault_at(Reason::Tag, bytes)));
            }
            if let Err(fault) = builder.room() {
                return Err(Stop::Fault(fault_at(reason(fault), bytes)));
            }
            tagged(alloc, builder, *tag, bytes, rest)
        }
    }
}

// A key of an array, or a name of an object.
#[tactic(auto, unfolding(crate::specs::Reading::key_at))]
pub(crate) fn key<'a>(
    alloc: Global,
    builder: &mut Builder,
    bytes: &'a [u8],
) -> Result<&'a [u8], Stop>
    requires { wants_key (wants_of builder.old) ≡ true }
    ensures read { Gives (λ rest. (builder.new, rest.now)) result (key_at builder.old bytes.now) }
    ensures waits { OnOk result ((builder.new.containers ≡ builder.old.containers)
        × (builder.new.places ≡ builder.old.places) × IsSome builder.new.key) }
    ensures less { IfOk result (λ rest. length rest.now < length bytes.now) }
{
    match bytes {
        [] => Err(Stop::Fault(fault_at(Reason::End, bytes))),
        [tag, rest @ ..] => {
            let integers = builder.wants() == Wants::ArrayKey;
            let (key, rest) = key_tagged(alloc, integers, *tag, bytes, rest)?;
            put_key(builder, key, bytes)?;
            Ok(rest)
        }
    }
}

fn put_key(builder: &mut Builder, key: Key, at: &[u8]) -> Result<(), Stop>
    requires wants { wants_key (wants_of builder.old) ≡ true }
    requires named { takes_integers (wants_of builder.old) ≡ false → is_name key ≡ true }
    ensures read { Gives (λ u. builder.new) result (put_at builder.old (Item.Key key) at.now) }
    ensures waits { OnOk result ((builder.new.containers ≡ builder.old.containers)
        × (builder.new.places ≡ builder.old.places) × IsSome builder.new.key) }
{
    match builder.push(Item::Key(key)) {
        Ok(()) => Ok(()),
        Err(BuildFault::Memory) => Err(Stop::Memory),
        Err(fault) => Err(Stop::Fault(fault_at(reason(fault), at))),
    }
}

#[tactic(auto, unfolding(crate::specs::Reading::key_tagged_at))]
fn key_tagged<'a>(
    alloc: Global,
    integers: bool,
    tag: u8,
    bytes: &[u8],
    rest: &'a [u8],
) -> Result<(Key, &'a [u8]), Stop>
    requires { bytes.now ≡ tag ∷ rest.now }
    ensures read { Gives (λ x. (x.0, x.1.now)) result (key_tagged_at integers tag rest.now) }
    ensures named { IfOk result (λ x. integers ≡ false → is_name x.0 ≡ true) }
    ensures less { IfOk result (λ x. length x.1.now < length rest.now) }
{
    match tag {
        b's' => {
            let (text, rest) = string(rest)?;
            Ok((Key::Str(Bytes::of(alloc, text)?), rest))
        }
        b'i' if integers => {
            let (n, rest) = integer(rest)?;
            Ok((Key::Int(n), rest))
        }
        _ => Err(Stop::Fault(fault_at(Reason::Tag, bytes))),
    }
}

// The end of the innermost container.
#[tactic(auto, unfolding(crate::specs::Reading::closed_at))]
pub(crate) fn close<'a>(builder: &mut Builder, bytes: &'a [u8]) -> Result<&'a [u8], Stop>
    requires { wants_key (wants_of builder.old) ≡ true }
    ensures read { Gives (λ rest. (builder.new, rest.now)) result
        (closed_at builder.old bytes.now) }
    ensures closes { OnOk result ((builder.new.containers ≡ drop 1 builder.old.containers)
        × (builder.new.places ≡ builder.old.places) × (builder.new.key ≡ None)) }
    ensures less { IfOk result (λ rest. length rest.now < length bytes.now) }
{
    let rest = mark(b'}', bytes)?;
    match builder.push(Item::Close) {
        Ok(()) => Ok(rest),
        Err(_) => Err(Stop::Memory),
    }
}
