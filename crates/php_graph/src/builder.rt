//! Writing a graph item by item.

ghost use Rattle.std.specs.Prelude.{length, ◌≡◌, ◌<◌, ◌⊎◌, [], vec_len, vec_capacity, true, Some};
ghost use Rattle.std.specs.Prelude.{None, IsTrue, OnOk, OnErr, IfErr, IsErrOf, MatchResult};
ghost use Rattle.php_graph.specs.declared.item.BuildFault.{BuildFault};
ghost use Rattle.php_graph.specs.declared.item.BuildFault.TheVariants.{Memory};
ghost use Rattle.php_graph.specs.declared.item.Item.TheVariants as items;
ghost use Rattle.php_graph.specs.declared.item.Wants.TheVariants.{Value, ArrayKey, Name, Done};
ghost use Rattle.php_graph.specs.Building.{nothing_drafted, wants_of, item_fits, is_name, fault_of};
ghost use Rattle.php_graph.specs.Building.{pushed, IsAnswer, room_fault, value_fault, with_value};
ghost use Rattle.php_graph.specs.Building.{with_back};
ghost use Rattle.php_graph.specs.declared.kind.Kind.TheVariants as kinds;
ghost use Rattle.php_graph.specs.Graph.{IsGraph, is_object_at};
ghost use Rattle.php_graph.specs.BuilderState.{IsNewKind};

use crate::bytes::Bytes;
use crate::child::Child;
use crate::container::Container;
use crate::draft_steps::{add_key_to_last, attach, open_container, push_place};
use crate::graph::Graph;
use crate::item::{BuildFault, Item, Wants};
use crate::key::Key;
use crate::kind::Kind;
use crate::members::Members;
use crate::numbers::is_class;
use crate::places::Places;
use crate::props::Props;
use std::alloc::{AllocError, Global};
use std::marker::Model;

/// How deep containers may be nested.
pub const LEVELS: usize = 512;
/// How many values a graph may have.
pub const MOST_VALUES: u32 = 16_777_216;

/// A graph that is being written, item by item, in the order of the notation.
pub struct Builder {
    // None if nothing is written yet. The offset of each place in the image is set once the graph
    // is complete.
    places: Option<Places>,
    // The open containers, the outermost first.
    containers: Vec<Container>,
    // The key that waits for its value.
    key: Option<Key>,
    // The values so far: places, and members that share one.
    values: u32,
    alloc: Global,
}

impl Model for Builder {
    ghost use Rattle.php_graph.specs.Building.{Draft};
    ghost use Rattle.php_graph.specs.BuilderState.{draft_of, kinds_in, IsBuilding};

    ghost Value = { Draft };

    ghost view = { λ a. draft_of (kinds_in a.places) a.containers.items a.key };

    ghost invariant = { λ a. IsBuilding (kinds_in a.places) a.containers.items a.key a.values };
}

// Written out, as for each type that owns many parts: a body that drops a builder, on each of its
// ways out, then has one call to follow there and not a walk through the parts.
impl Drop for Builder {
    fn drop(self) {
        let Builder {
            places: _places,
            containers: _containers,
            key: _key,
            values: _,
            alloc: _,
        } = self;
    }
}

// Reserves room for one more open container, if one opens.
fn make_room(containers: &mut Vec<Container>, opens: bool) -> Result<(), AllocError>
    ensures items { containers.new.items ≡ containers.old.items }
    ensures room { IsTrue opens
        → OnOk result (vec_len containers.new < vec_capacity containers.new) }
{
    if opens {
        containers.reserve(1)?;
    }
    Ok(())
}

impl Builder {
    /// Nothing is written yet. This allocates no memory.
    pub fn new(alloc: Global) -> Builder
        ensures { result ≡ nothing_drafted }
    {
        Builder {
            places: None,
            containers: Vec::new(alloc),
            key: None,
            values: 0,
            alloc,
        }
    }

    // The number of places.
    fn len(&self) -> usize
        ensures { result ≡ length self.now.places }
    {
        match &self.places {
            Some(places) => places.len(),
            None => 0,
        }
    }

    /// What is expected next.
    pub fn wants(&self) -> Wants
        ensures { result ≡ wants_of self.now }
    {
        let Some(places) = &self.places else {
            return Wants::Value;
        };
        let Some(container) = self.containers.last() else {
            return Wants::Done;
        };
        if self.key.is_some() {
            return Wants::Value;
        }
        let kind = places.kind((container.place - 1) as usize);
        if kind.is_array() {
            Wants::ArrayKey
        } else {
            Wants::Name
        }
    }

    /// Why there is no room for one more value: it would be nested too deep, or there are too many.
    /// This applies whatever the value is.
    pub fn room(&self) -> Result<(), BuildFault>
        ensures { MatchResult result (λ _. room_fault self.now ≡ None)
            (λ fault. room_fault self.now ≡ Some fault) }
    {
        if self.containers.len() >= LEVELS {
            return Err(BuildFault::TooDeep);
        }
        if self.values >= MOST_VALUES {
            return Err(BuildFault::TooManyPlaces);
        }
        Ok(())
    }

    // A value with a place of its own, if there is room for it.
    fn add_value(&mut self, kind: Kind) -> Result<(), AllocError>
        requires wanted { wants_of self.old ≡ Value }
        requires new_value { IsNewKind self.old.places kind }
        requires room { room_fault self.old ≡ None }
        ensures ok { OnOk result (self.new ≡ with_value self.old kind) }
        ensures err { OnErr result (self.new ≡ self.old) }
    {
        let place = self.len() as u32 + 1;
        let opens = kind.is_container();
        make_room(&mut self.containers, opens)?;
        kind.check();
        push_place(
            self.alloc,
            &mut self.places,
            &self.containers,
            &mut self.key,
            kind,
        )?;
        open_container(&mut self.containers, place, opens);
        self.values += 1;
        Ok(())
    }

    // A value with a place of its own.
    fn push_value(&mut self, kind: Kind) -> Result<(), BuildFault>
        requires wanted { wants_of self.old ≡ Value }
        requires new_value { IsNewKind self.old.places kind }
        ensures answer { IsAnswer (room_fault self.old) result }
        ensures ok { OnOk result (self.new ≡ with_value self.old kind) }
        ensures err { OnErr result (self.new ≡ self.old) }
    {
        self.room()?;
        self.add_value(kind)?;
        Ok(())
    }

    // A member that shares the value at this place.
    fn push_back(&mut self, place: u32) -> Result<(), BuildFault>
        requires { wants_of self.old ≡ Value }
        ensures answer { IsAnswer (value_fault self.old (items.Back place)) result }
        ensures ok { OnOk result (self.new ≡ with_back self.old place) }
        ensures err { OnErr result (self.new ≡ self.old) }
    {
        self.room()?;
        let Some(places) = &mut self.places else {
            return Err(BuildFault::BadNumber);
        };
        if place == 0 || place as usize > places.len() {
            return Err(BuildFault::BadNumber);
        }
        attach(places, &self.containers, &mut self.key, Child::Back(place))?;
        self.values += 1;
        Ok(())
    }

    // A value that names the object at this place.
    fn push_same(&mut self, place: u32) -> Result<(), BuildFault>
        requires { wants_of self.old ≡ Value }
        ensures answer { IsAnswer (value_fault self.old (items.Same place)) result }
        ensures ok { OnOk result (self.new ≡ with_value self.old (kinds.Same place)) }
        ensures err { OnErr result (self.new ≡ self.old) }
    {
        self.room()?;
        if !self.has_object(place) {
            return Err(BuildFault::BadNumber);
        }
        self.add_value(Kind::Same(place))?;
        Ok(())
    }

    // Whether an object has begun at this place.
    fn has_object(&self, place: u32) -> bool
        ensures { result ≡ is_object_at self.now.places place }
    {
        let Some(places) = &self.places else {
            return false;
        };
        let at = place as usize;
        if at == 0 || at > places.len() {
            return false;
        }
        let kind = places.kind((place - 1) as usize);
        kind.is_object()
    }

    // An object that begins.
    fn push_object(&mut self, class: Bytes) -> Result<(), BuildFault>
        requires { wants_of self.old ≡ Value }
        ensures answer { IsAnswer (value_fault self.old (items.OpenObject class)) result }
        ensures ok { OnOk result (self.new ≡ with_value self.old (kinds.Object class [])) }
        ensures err { OnErr result (self.new ≡ self.old) }
    {
        self.room()?;
        if !is_class(class.as_slice()) {
            return Err(BuildFault::BadClass);
        }
        let props = Props::new(self.alloc)?;
        self.add_value(Kind::Object(class, props))?;
        Ok(())
    }

    // The key of the next member.
    fn push_key(&mut self, key: Key) -> Result<(), BuildFault>
        requires inside { wants_of self.old ≡ ArrayKey
            ⊎ (wants_of self.old ≡ Name × is_name key ≡ true) }
        ensures answer { IsAnswer (fault_of self.old (items.Key key)) result }
        ensures ok { OnOk result (self.new ≡ pushed self.old (items.Key key)) }
        ensures err { OnErr result (self.new ≡ self.old) }
    {
        add_key_to_last(self.alloc, &self.places, &mut self.containers, &key)?;
        self.key = Some(key);
        Ok(())
    }

    // The innermost open container ends.
    fn close(&mut self)
        requires { wants_of self.old ≡ ArrayKey ⊎ wants_of self.old ≡ Name }
        ensures { self.new ≡ pushed self.old items.Close }
    {
        let _ = self.containers.pop();
    }

    fn step(&mut self, item: Item) -> Result<(), BuildFault>
        requires { IsTrue (item_fits (wants_of self.old) item) }
        ensures answer { IsAnswer (fault_of self.old item) result }
        ensures ok { OnOk result (self.new ≡ pushed self.old item) }
        ensures err { OnErr result (self.new ≡ self.old) }
    {
        match item {
            Item::Null => self.push_value(Kind::Null),
            Item::Bool(truth) => self.push_value(Kind::Bool(truth)),
            Item::Int(number) => self.push_value(Kind::Int(number)),
            Item::Str(bytes) => self.push_value(Kind::Str(bytes)),
            Item::OpenArray => {
                let members = Members::new(self.alloc);
                self.push_value(Kind::Array(members))
            }
            Item::OpenObject(class) => self.push_object(class),
            Item::Key(key) => self.push_key(key),
            Item::Close => {
                self.close();
                Ok(())
            }
            Item::Same(place) => self.push_same(place),
            Item::Back(place) => self.push_back(place),
        }
    }

    /// Writes the next item. It is refused if it begins a value inside 512 containers, or the value
    /// number 16,777,217; if it shares a place that has not begun, or names no object that has; if
    /// its key is an integer's decimal, or exists already; or if its class name is invalid. It is
    /// out of memory only if none of these applies. A refusal changes nothing.
    pub fn push(&mut self, item: Item) -> Result<(), BuildFault>
        requires { IsTrue (item_fits (wants_of self.old) item) }
        ensures ok { OnOk result ((self.new ≡ pushed self.old item)
            × (fault_of self.old item ≡ None)) }
        ensures refused { (fault : BuildFault) → fault_of self.old item ≡ Some fault
            → IsErrOf result fault }
        ensures cause { IfErr result (λ fault. (fault ≡ Memory)
            ⊎ (fault_of self.old item ≡ Some fault)) }
        ensures err { OnErr result (self.new ≡ self.old) }
    {
        self.step(item)
    }

    /// The graph that was written.
    pub fn seal(self) -> Graph
        requires { wants_of self ≡ Done }
        ensures places { result ≡ self.places }
        ensures graph { IsGraph self.places }
    {
        let Builder {
            places,
            containers: _,
            key: _,
            values: _,
            alloc: _,
        } = self;
        let Some(places) = places else { unreachable!() };
        Graph::from_parts(places)
    }
}
