//! An iterator's search, its list of rows, and the fields that it returns.

use php_graph::Bytes;

/// A pattern by which keys are searched, without the `/` on either side: the text is in the syntax
/// of the crate `regex`, and matches anywhere in a key's bytes.
#[derive(Drop)]
pub struct Pattern {
    pub text: Bytes,
    /// Whether letters match in either case, as `/text/i` has it.
    pub fold: bool,
}

/// The list of an iterator's rows, the last argument of `APCUIterator`'s constructor in the PHP
/// manual.
#[derive(Clone, Copy, Debug, PartialEq, Eq)]
pub enum List {
    /// `APC_LIST_ACTIVE`: the rows that have not expired.
    Active,
    /// `APC_LIST_DELETED`: rows that were dropped while a worker copied them.
    Deleted,
}

/// The fields of a row that an iterator returns, a bit for each. From bit 0 on: key, value, number
/// of hits, moments of change, creation, deletion and last use, size and ttl. See the constants
/// `APC_ITER_KEY` and so on in the PHP manual.
#[derive(Clone, Copy, Debug, PartialEq, Eq)]
pub struct Fields(pub u16);
