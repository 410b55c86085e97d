//! The members' values.

ghost use Rattle.std.specs.Prelude.{◌≡◌};
ghost use Rattle.php_graph.specs.Graph.{lowered_child};

/// What a member of an array or an object holds.
#[derive(Clone, Copy, Debug, PartialEq, Eq)]
pub enum Child {
    /// The value that is written here. It has this place of its own.
    Own(u32),
    /// The notation's `R:k;`: the member shares the place k, and has none of its own.
    Back(u32),
}

impl Child {
    // The same child of a graph whose numbers are lowered by this amount. None if that names none
    // of its places.
    pub(crate) fn lowered(self, by: u32) -> Option<Child>
        ensures { result ≡ lowered_child by self }
    {
        match self {
            Child::Own(place) if by < place => Some(Child::Own(place - by)),
            Child::Back(place) if by < place => Some(Child::Back(place - by)),
            _ => None,
        }
    }
}
