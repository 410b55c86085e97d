//! The items of a builder, which one it wants next, and which it refuses.

ghost use Rattle.std.specs.Prelude.{◌≡◌};
ghost use Rattle.php_graph.specs.declared.item.BuildFault.TheVariants.{Memory};
ghost use Rattle.php_graph.specs.Building.{item_fits};

use crate::bytes::Bytes;
use crate::key::Key;
use std::alloc::AllocError;
use thiserror::Error;

/// A step in writing a value: a value, the beginning or the end of a container, or a key.
#[derive(Drop)]
pub enum Item {
    Null,
    Bool(bool),
    Int(i64),
    Str(Bytes),
    OpenArray,
    /// An object begins, with its class.
    OpenObject(Bytes),
    /// The key of an array's next member, or as a `Key::Str` the name of an object's next property.
    Key(Key),
    /// The innermost open container ends.
    Close,
    /// The notation's `r:k;`, a value of its own that names the object at place k.
    Same(u32),
    /// The notation's `R:k;`, which shares the value at place k.
    Back(u32),
}

/// What is expected next.
#[derive(Clone, Copy, Debug, PartialEq, Eq)]
pub enum Wants {
    Value,
    /// A key, or the end of the array.
    ArrayKey,
    /// A name, or the end of the object.
    Name,
    /// Nothing: the graph is complete.
    Done,
}

impl Wants {
    /// Whether this item is allowed next.
    pub fn permits(self, item: &Item) -> bool
        ensures { result ≡ item_fits self item.now }
    {
        match self {
            Wants::Value => match item {
                Item::Key(_) | Item::Close => false,
                _ => true,
            },
            Wants::ArrayKey => match item {
                Item::Key(_) | Item::Close => true,
                _ => false,
            },
            Wants::Name => match item {
                Item::Key(key) => key.is_name(),
                Item::Close => true,
                _ => false,
            },
            Wants::Done => false,
        }
    }
}

/// Why an item was refused.
#[derive(Clone, Copy, Debug, PartialEq, Eq, Error)]
pub enum BuildFault {
    #[error("out of memory")]
    Memory,
    #[error("a value inside more than 511 containers")]
    TooDeep,
    #[error("more than 16777216 values")]
    TooManyPlaces,
    #[error("a number that names no such place")]
    BadNumber,
    #[error("a key that is there already")]
    RepeatedKey,
    #[error("a class with no name, or with a byte that no class has")]
    BadClass,
    #[error("a string key that is an integer")]
    IntegerText,
}

impl From<AllocError> for BuildFault {
    ghost from_gives = { λ _ fault. fault ≡ Memory };

    fn from(_error: AllocError) -> BuildFault {
        BuildFault::Memory
    }
}
