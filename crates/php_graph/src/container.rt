//! What a builder knows of a container that is open.

ghost use Rattle.std.specs.Prelude.{◌≡◌, ◌++◌, ◌∷◌, [], List, IsTrue, not, false, Err, IfOk, OnOk};
ghost use Rattle.std.specs.Prelude.{OnErr};
ghost use Rattle.std.specs.Ordering.{nat_cmp};
ghost use Rattle.std.specs.BTreeSet.{contains};
ghost use Rattle.php_graph.specs.declared.key.Key.{Key};
ghost use Rattle.php_graph.specs.declared.container.Seen.TheVariants.{Nothing};
ghost use Rattle.php_graph.specs.Graph.{keys_of, holds_key};
ghost use Rattle.php_graph.specs.Building.{IsAnswer};
ghost use Rattle.php_graph.specs.Keys.{KnowsKeys, SeesKeys, HasKeys, HasMarks, is_above, raised};
ghost use Rattle.php_graph.specs.Keys.{key_mark, repeat_fault};

use crate::item::BuildFault;
use crate::key::Key;
use crate::kind::Kind;
use std::alloc::{AllocError, Global};
use std::collections::BTreeSet;

// Up to this many keys are compared one by one.
const FEW_KEYS: u32 = 8;

// What is kept of a container's keys, to recognise new ones.
pub(crate) enum Seen {
    // Nothing: there are few keys, or each one's mark was above those before it.
    Nothing,
    // Each key's mark.
    Marks(BTreeSet<u64>),
    // Each key, since one came whose mark was already in the set.
    Keys(BTreeSet<Key>),
}

// Written out, so that the walk through a set's nodes is proved only here and not in each crate
// that drops a builder.
impl Drop for Seen {
    fn drop(self) {
        match self {
            Seen::Nothing => {}
            Seen::Marks(_marks) => {}
            Seen::Keys(_keys) => {}
        }
    }
}

// An open container, and what is known of its keys.
#[derive(Drop)]
pub(crate) struct Container {
    // Its place, from 1.
    pub(crate) place: u32,
    // No key's mark is above it. None if there is no key.
    pub(crate) highest: Option<u64>,
    // What is kept of its keys.
    pub(crate) seen: Seen,
}

impl Container {
    // A container with no keys.
    pub(crate) fn new(place: u32) -> Container
        ensures place { result.place ≡ place }
        ensures keys { KnowsKeys result.highest result.seen [] }
    {
        Container {
            place,
            highest: None,
            seen: Seen::Nothing,
        }
    }

    // Adds this key to the container, unless it has it. A key whose mark is above all others is
    // new, and is not looked up.
    pub(crate) fn add_key(
        &mut self,
        alloc: Global,
        kind: &Kind,
        key: &Key,
    ) -> Result<(), BuildFault>
        requires { KnowsKeys self.old.highest self.old.seen (keys_of kind.now) }
        ensures place { self.new.place ≡ self.old.place }
        ensures answer { IsAnswer (repeat_fault (keys_of kind.now) key.now) result }
        ensures ok { OnOk result (KnowsKeys self.new.highest self.new.seen
            (keys_of kind.now ++ key.now ∷ [])) }
        ensures err { OnErr result (KnowsKeys self.new.highest self.new.seen (keys_of kind.now)) }
    {
        let mark = key.mark();
        let rises = is_above(self.highest, mark);
        see(&mut self.seen, alloc, kind, key, mark, rises)?;
        self.highest = raised(self.highest, mark);
        Ok(())
    }
}

// Notes a key, unless it exists. One whose mark is above all others is new.
fn see(
    seen: &mut Seen,
    alloc: Global,
    kind: &Kind,
    key: &Key,
    mark: u64,
    rises: bool,
) -> Result<(), BuildFault>
    requires sees { SeesKeys seen.old (keys_of kind.now) }
    requires mark { mark ≡ key_mark key.now }
    requires new { IsTrue rises → holds_key (keys_of kind.now) key.now ≡ false }
    ensures answer { IsAnswer (repeat_fault (keys_of kind.now) key.now) result }
    ensures ok { OnOk result (SeesKeys seen.new (keys_of kind.now ++ key.now ∷ [])) }
    ensures err { OnErr result (SeesKeys seen.new (keys_of kind.now)) }
{
    match seen {
        Seen::Nothing => {
            if rises {
                return Ok(());
            }
            see_first(seen, alloc, kind, key, mark)
        }
        Seen::Marks(marks) => {
            if insert_mark(marks, mark)? {
                return Ok(());
            }
            see_marked(seen, alloc, kind, key)
        }
        Seen::Keys(keys) => insert_new(keys, alloc, key),
    }
}

// Notes a key when nothing is kept, unless it exists. If there are many, their marks are kept from
// here on.
fn see_first(
    seen: &mut Seen,
    alloc: Global,
    kind: &Kind,
    key: &Key,
    mark: u64,
) -> Result<(), BuildFault>
    requires nothing { seen.old ≡ Nothing }
    requires mark { mark ≡ key_mark key.now }
    ensures answer { IsAnswer (repeat_fault (keys_of kind.now) key.now) result }
    ensures ok { OnOk result (SeesKeys seen.new (keys_of kind.now ++ key.now ∷ [])) }
    ensures err { OnErr result (SeesKeys seen.new (keys_of kind.now)) }
{
    if kind.members() < FEW_KEYS {
        return if kind.has_key(key) {
            Err(BuildFault::RepeatedKey)
        } else {
            Ok(())
        };
    }
    let Ok(mut marks) = kind.mark_set(alloc) else {
        return Err(no_memory(kind, key));
    };
    if insert_mark(&mut marks, mark)? {
        *seen = Seen::Marks(marks);
        return Ok(());
    }
    see_marked(seen, alloc, kind, key)
}

// Notes a key whose mark exists, unless it exists itself. From here on all keys are kept, so that
// many keys of one mark cost no more than others.
fn see_marked(seen: &mut Seen, alloc: Global, kind: &Kind, key: &Key) -> Result<(), BuildFault>
    requires { SeesKeys seen.old (keys_of kind.now) }
    ensures answer { IsAnswer (repeat_fault (keys_of kind.now) key.now) result }
    ensures ok { OnOk result (SeesKeys seen.new (keys_of kind.now ++ key.now ∷ [])) }
    ensures err { OnErr result (SeesKeys seen.new (keys_of kind.now)) }
{
    let Ok(mut keys) = kind.key_set(alloc) else {
        return Err(no_memory(kind, key));
    };
    let noted = insert_new(&mut keys, alloc, key);
    *seen = Seen::Keys(keys);
    noted
}

// The fault if there is no memory. An existing key is refused as always.
fn no_memory(kind: &Kind, key: &Key) -> BuildFault
    ensures { IsAnswer (repeat_fault (keys_of kind.now) key.now) (Err result) }
{
    if kind.has_key(key) {
        BuildFault::RepeatedKey
    } else {
        BuildFault::Memory
    }
}

// Adds an equal key to the set, unless it is in it.
fn insert_new(keys: &mut BTreeSet<Key>, alloc: Global, key: &Key) -> Result<(), BuildFault>
    ensures answer { (ks : List Key) → HasKeys ks keys.old
        → IsAnswer (repeat_fault ks key.now) result }
    ensures ok { OnOk result ((ks : List Key) → HasKeys ks keys.old
        → HasKeys (ks ++ key.now ∷ []) keys.new) }
    ensures err { OnErr result ((ks : List Key) → HasKeys ks keys.old → HasKeys ks keys.new) }
{
    if keys.contains(key) {
        return Err(BuildFault::RepeatedKey);
    }
    insert_copy(keys, alloc, key)?;
    Ok(())
}

// Adds an equal key to the set.
pub(crate) fn insert_copy(
    set: &mut BTreeSet<Key>,
    alloc: Global,
    key: &Key,
) -> Result<(), AllocError>
    ensures ok { OnOk result ((ks : List Key) → HasKeys ks set.old
        → HasKeys (ks ++ key.now ∷ []) set.new) }
    ensures err { OnErr result ((ks : List Key) → HasKeys ks set.old → HasKeys ks set.new) }
{
    set.insert(key.try_copy(alloc)?)?;
    Ok(())
}

// Adds a key's mark to the set, and returns whether it is new there. Only a new one needs memory.
pub(crate) fn insert_mark(marks: &mut BTreeSet<u64>, mark: u64) -> Result<bool, AllocError>
    ensures new { IfOk result (λ new. new ≡ not (contains nat_cmp marks.old mark)) }
    ensures absent { OnErr result (contains nat_cmp marks.old mark ≡ false) }
    ensures ok { OnOk result ((ks : List Key) (k : Key) → mark ≡ key_mark k → HasMarks ks marks.old
        → HasMarks (ks ++ k ∷ []) marks.new) }
    ensures kept { (ks : List Key) → HasMarks ks marks.old → HasMarks ks marks.new }
{
    let new = marks.insert(mark)?;
    Ok(new)
}

// Whether a mark is above the highest.
fn is_above(highest: Option<u64>, mark: u64) -> bool
    ensures { result ≡ is_above highest mark }
{
    match highest {
        Some(highest) => highest < mark,
        None => true,
    }
}

// The highest mark after this one was added.
fn raised(highest: Option<u64>, mark: u64) -> Option<u64>
    ensures { result ≡ raised highest mark }
{
    match highest {
        Some(highest) if mark <= highest => Some(highest),
        _ => Some(mark),
    }
}
