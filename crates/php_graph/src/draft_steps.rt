//! The steps of a builder, over the lists that it keeps.

ghost use Rattle.std.specs.Prelude.{◌≡◌, ◌<◌, ◌+◌, ◌^◌, ◌++◌, ◌∷◌, [], IsTrue, length, reverse};
ghost use Rattle.std.specs.Prelude.{true, OnOk, OnErr, Some, None, vec_len, vec_capacity};
ghost use Rattle.std.specs.List.{AllByRecursion};
ghost use Rattle.php_graph.specs.declared.child.Child.TheVariants.{Own};
ghost use Rattle.php_graph.specs.Graph.{is_array_key, keys_of, FitsKey};
ghost use Rattle.php_graph.specs.Keys.{KnowsKeys};
ghost use Rattle.php_graph.specs.PlaceOffsets.{kinds_of};
ghost use Rattle.php_graph.specs.Building.{attached, innermost_fault, fault_in, IsAnswer};
ghost use Rattle.php_graph.specs.BuilderState.{Opens, kinds_in, places_of, CanAttach, KnowsAll};
ghost use Rattle.php_graph.specs.BuilderState.{is_open_at};

use crate::child::Child;
use crate::container::Container;
use crate::item::BuildFault;
use crate::key::Key;
use crate::kind::Kind;
use crate::numbers::int_of_text;
use crate::places::Places;
use std::alloc::{AllocError, Global};

// Puts a value at the end, if there is room for it.
pub(crate) fn put<T: Drop>(items: &mut Vec<T>, value: T)
    requires { vec_len items.old < vec_capacity items.old }
    ensures { items.new.items ≡ items.old.items ++ value ∷ [] }
{
    if let Err(_) = items.push(value) {
        unreachable!()
    }
}

// Notes a container that opens at this place, if there is room for it.
pub(crate) fn open_container(containers: &mut Vec<Container>, place: u32, opens: bool)
    requires { IsTrue opens → vec_len containers.old < vec_capacity containers.old }
    ensures { Opens opens place containers.old.items containers.new.items }
{
    if opens {
        put(containers, Container::new(place));
    }
}

// Gives the innermost open container this member, under the key that waits.
pub(crate) fn attach(
    places: &mut Places,
    containers: &[Container],
    key: &mut Option<Key>,
    child: Child,
) -> Result<(), AllocError>
    requires { CanAttach (kinds_of places.old) (places_of containers.now) key.old }
    ensures ok { OnOk result ((kinds_of places.new)
        ≡ attached (kinds_of places.old) (places_of containers.now) key.old child) }
    ensures used { OnOk result (key.new ≡ None) }
    ensures err { OnErr result ((places.new ≡ places.old) × (key.new ≡ key.old)) }
{
    let Some(container) = containers.last() else {
        return Ok(());
    };
    match key.take() {
        None => Ok(()),
        Some(name) => {
            match places.add((container.place - 1) as usize, name, child) {
                Ok(()) => Ok(()),
                Err(name) => {
                    *key = Some(name);
                    Err(AllocError)
                }
            }
        }
    }
}

// Gives a value the next place, as a member of the innermost open container.
pub(crate) fn push_place(
    alloc: Global,
    places: &mut Option<Places>,
    containers: &[Container],
    key: &mut Option<Key>,
    kind: Kind,
) -> Result<(), AllocError>
    requires can { CanAttach (kinds_in places.old) (places_of containers.now) key.old }
    requires small { length (kinds_in places.old) + 1 < 2 ^ 32 }
    ensures ok { OnOk result (kinds_in places.new
        ≡ attached (kinds_in places.old) (places_of containers.now) key.old
        (Own (length (kinds_in places.old) + 1)) ++ kind ∷ []) }
    ensures used { OnOk result (key.new ≡ None) }
    ensures err { OnErr result ((kinds_in places.new ≡ kinds_in places.old)
        × (key.new ≡ key.old)) }
{
    match places {
        Some(places) => push_other(places, containers, key, kind),
        None => {
            *places = Some(Places::new(alloc, kind));
            Ok(())
        }
    }
}

// Gives a value that is not the first the next place, as a member of the innermost open container.
fn push_other(
    places: &mut Places,
    containers: &[Container],
    key: &mut Option<Key>,
    kind: Kind,
) -> Result<(), AllocError>
    requires can { CanAttach (kinds_of places.old) (places_of containers.now) key.old }
    requires small { length (kinds_of places.old) + 1 < 2 ^ 32 }
    ensures ok { OnOk result (kinds_of places.new
        ≡ attached (kinds_of places.old) (places_of containers.now) key.old
        (Own (length (kinds_of places.old) + 1)) ++ kind ∷ []) }
    ensures used { OnOk result (key.new ≡ None) }
    ensures err { OnErr result ((kinds_of places.new ≡ kinds_of places.old)
        × (key.new ≡ key.old)) }
{
    let place = places.len() as u32 + 1;
    places.push(kind)?;
    match attach(places, containers, key, Child::Own(place)) {
        Ok(()) => Ok(()),
        Err(error) => {
            places.drop_last();
            Err(error)
        }
    }
}

// Notes a key of the innermost open container, unless it is not allowed there.
pub(crate) fn add_key_to_last(
    alloc: Global,
    places: &Option<Places>,
    containers: &mut Vec<Container>,
    key: &Key,
) -> Result<(), BuildFault>
    requires known { KnowsAll (kinds_in places.now) (reverse containers.old.items) None }
    requires opened { AllByRecursion (λ p. is_open_at (kinds_in places.now) p ≡ true)
        (places_of containers.old.items) }
    ensures fits { FitsKey key.now }
    ensures answer { IsAnswer
        (innermost_fault (kinds_in places.now) (places_of containers.old.items) key.now) result }
    ensures places { places_of containers.new.items ≡ places_of containers.old.items }
    ensures ok { OnOk result
        (KnowsAll (kinds_in places.now) (reverse containers.new.items) (Some key.now)) }
    ensures err { OnErr result
        (KnowsAll (kinds_in places.now) (reverse containers.new.items) None) }
{
    key.check();
    let last = containers.len();
    if last == 0 {
        return Ok(());
    }
    let Some(places) = places else { unreachable!() };
    let container = &mut containers[last - 1];
    let kind = places.kind((container.place - 1) as usize);
    add_key_to(alloc, kind, container, key)
}

// Notes a key of an open container, unless it is not allowed there.
fn add_key_to(
    alloc: Global,
    kind: &Kind,
    container: &mut Container,
    key: &Key,
) -> Result<(), BuildFault>
    requires { KnowsKeys container.old.highest container.old.seen (keys_of kind.now) }
    ensures answer { IsAnswer (fault_in kind.now key.now) result }
    ensures place { container.new.place ≡ container.old.place }
    ensures ok { OnOk result (KnowsKeys container.new.highest container.new.seen
        (keys_of kind.now ++ key.now ∷ [])) }
    ensures err { OnErr result (KnowsKeys container.new.highest container.new.seen
        (keys_of kind.now)) }
{
    if kind.is_array() && !is_array_key(key) {
        return Err(BuildFault::IntegerText);
    }
    container.add_key(alloc, kind, key)
}

// Whether an array may have this key.
fn is_array_key(key: &Key) -> bool
    ensures { result ≡ is_array_key key.now }
{
    match key {
        Key::Int(_) => true,
        Key::Str(bytes) => int_of_text(bytes.as_slice()).is_none(),
    }
}
