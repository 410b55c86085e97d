//! The numbers of places, which replace their offsets.

ghost use Rattle.std.specs.Prelude.{◌≡◌, ℕ, ◌+◌, ◌<◌, ◌^◌, ◌∷◌, List, length, map, slice_index};
ghost use Rattle.std.specs.Prelude.{slice_get, Some, IfOk, OnOk};
ghost use Rattle.php_graph.specs.declared.kind.Kind.{Kind};
ghost use Rattle.php_graph.specs.PlaceOffsets.{kinds_at, offsets_at};
ghost use Rattle.value_image.specs.Places.{number_of};
ghost use Rattle.value_image.specs.Reading.{AllBelow, IsBelow, IsReadOf, renumbered_child};
ghost use Rattle.value_image.specs.Reading.{renumbered_member, renumbered_kind};

use php_graph::{Child, Kind, Members, Place, Props};
use std::alloc::{AllocError, Global};

// The member with the number that the table has at its offset.
fn renumbered(child: Child, table: &[u32]) -> Child
    requires { number_of child < length table.now }
    ensures { result ≡ renumbered_child (slice_index table.now) child }
{
    match child {
        Child::Own(offset) => Child::Own(table[offset as usize]),
        Child::Back(offset) => Child::Back(table[offset as usize]),
    }
}

// Gives each member its number.
fn renumber_members(members: &mut Members, table: &[u32])
    requires { AllBelow (length table.now) members.old }
    ensures { members.new ≡ map (renumbered_member (slice_index table.now)) members.old }
{
    for i in 0..members.len() {
        let child = members.at(i).1;
        members.set_child(i, renumbered(child, table));
    }
}

// Gives each property its number.
fn renumber_properties(props: &mut Props, table: &[u32])
    requires { AllBelow (length table.now) props.old }
    ensures { props.new ≡ map (renumbered_member (slice_index table.now)) props.old }
{
    for i in 0..props.len() {
        let child = props.at(i).1;
        props.set_child(i, renumbered(child, table));
    }
}

// Gives what is at a place its numbers.
fn renumber_place(kind: &mut Kind, table: &[u32])
    requires { IsBelow (length table.now) kind.old }
    ensures { kind.new ≡ renumbered_kind (slice_index table.now) kind.old }
{
    match kind {
        Kind::Array(members) => renumber_members(members, table),
        Kind::Object(_, props) => renumber_properties(props, table),
        Kind::Same(offset) => *offset = table[*offset as usize],
        _ => {}
    }
}

// Gives places their numbers.
fn renumber_places(places: &mut Vec<Place>, table: &[u32])
    requires { (i : ℕ) (kind : Kind) → slice_get (kinds_at places.old.items) i ≡ Some kind
        → IsBelow (length table.now) kind }
    ensures kinds { kinds_at places.new.items
        ≡ map (renumbered_kind (slice_index table.now)) (kinds_at places.old.items) }
    ensures offsets { offsets_at places.new.items ≡ offsets_at places.old.items }
{
    for i in 0..places.len() {
        renumber_place(&mut places[i].kind, table);
    }
}

// The offset of a place except the first, which has the offset 0.
fn offset_at(others: &[Place], i: usize) -> u64
    requires { i < length others.now }
    ensures { result ≡ slice_index (0 ∷ offsets_at others.now) (i + 1) }
{
    others[i].at
}

// A table of `len` words that has the number of each place, from 1, at the place's offset.
fn table_of(alloc: Global, others: &[Place], len: u32) -> Result<Vec<u32>, AllocError>
    requires few { length others.now + 1 < 2 ^ 32 }
    requires below { (i : ℕ) → i < length others.now + 1
        → slice_index (0 ∷ offsets_at others.now) i < len }
    requires rising { (i j : ℕ) → i < j → j < length others.now + 1
        → slice_index (0 ∷ offsets_at others.now) i < slice_index (0 ∷ offsets_at others.now) j }
    ensures { IfOk result (λ table. (length table.items ≡ len)
        × ((i : ℕ) → i < length others.now + 1
        → slice_index table.items (slice_index (0 ∷ offsets_at others.now) i) ≡ i + 1)) }
{
    let mut table = Vec::from_elem(alloc, 0u32, len as usize)?;
    table[0] = 1;
    for i in 0..others.len() {
        table[offset_at(others, i) as usize] = i as u32 + 2;
    }
    Ok(table)
}

// Gives the places that were read their numbers.
pub(crate) fn number(
    alloc: Global,
    first: &mut Kind,
    others: &mut Vec<Place>,
    len: u32,
) -> Result<(), AllocError>
    requires { (g : List Kind) × IsReadOf (first.old ∷ kinds_at others.old.items)
        (0 ∷ offsets_at others.old.items) len g }
    ensures places { (g : List Kind) → IsReadOf (first.old ∷ kinds_at others.old.items)
        (0 ∷ offsets_at others.old.items) len g
        → OnOk result (first.new ∷ kinds_at others.new.items ≡ g) }
    ensures offsets { offsets_at others.new.items ≡ offsets_at others.old.items }
{
    if others.is_empty() {
        renumber_place(first, &[1]);
        return Ok(());
    }
    let table = table_of(alloc, others.as_slice(), len)?;
    renumber_place(first, table.as_slice());
    renumber_places(others, table.as_slice());
    Ok(())
}
