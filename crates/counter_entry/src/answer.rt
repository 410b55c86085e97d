//! The results of counting and of generating.

/// The result of counting.
#[derive(Clone, Copy, Debug, PartialEq, Eq)]
pub enum IncAnswer {
    /// A look-up finds a row whose value is no integer. Nothing changed.
    NotInteger,
    /// A look-up finds no row, and a new one does not fit: it is too large, or no gap is large
    /// enough after room was made.
    NoRoom,
    /// The counter's new value.
    Value(i64),
}

/// How the value of a generator was found.
#[derive(Clone, Copy, Debug, PartialEq, Eq)]
pub enum Fate {
    /// A look-up found a row of the outermost key, which holds the value.
    Found,
    /// There was none: the value was found under an inner key, or made from the literal.
    Made {
        /// Whether the value is now stored under the outermost key.
        stored: bool,
    },
}
