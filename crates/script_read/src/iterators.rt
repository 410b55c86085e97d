//! Lines of iterators.

ghost use Rattle.std.specs.Prelude.{ℕ, ◌<◌, List, length, IfOk};
ghost use Rattle.script_read.specs.Table.{walk_form, walk_delete_form, totals_form};
ghost use Rattle.script_read.specs.Reading.{rest_at};
ghost use Rattle.script_read.specs.Gives.{GivesItem, IsInRange};

use crate::arguments::{fields_argument, list_argument, search_argument, size_argument};
use crate::call::Call;
use crate::effect::Effect;
use crate::fault::Stop;
use crate::lines::bare;
use std::alloc::Global;

// The arguments of `APCUIterator`.
pub(crate) fn walk(alloc: Global, bytes: &[u8]) -> Result<(Effect, &[u8]), Stop>
    ensures read { (last : List ℕ) → GivesItem (λ x. (x.0, x.1.now)) result
        (rest_at walk_form last bytes.now) }
    ensures fewer { IfOk result (λ x. length x.1.now < length bytes.now) }
    ensures range { IfOk result (λ x. IsInRange x.0) }
{
    let (search, rest) = search_argument(alloc, bytes)?;
    let (fields, rest) = fields_argument(alloc, rest)?;
    let (size, rest) = size_argument(alloc, rest)?;
    let (list, rest) = list_argument(alloc, rest)?;
    let call = Call::Walk {
        search,
        fields,
        size,
        list,
    };
    bare(call, rest)
}

// The arguments of `APCUIterator_delete`.
pub(crate) fn walk_delete(alloc: Global, bytes: &[u8]) -> Result<(Effect, &[u8]), Stop>
    ensures read { (last : List ℕ) → GivesItem (λ x. (x.0, x.1.now)) result
        (rest_at walk_delete_form last bytes.now) }
    ensures fewer { IfOk result (λ x. length x.1.now < length bytes.now) }
    ensures range { IfOk result (λ x. IsInRange x.0) }
{
    let (search, rest) = search_argument(alloc, bytes)?;
    let (size, rest) = size_argument(alloc, rest)?;
    bare(Call::WalkDelete { search, size }, rest)
}

// The arguments of `APCUIterator_totals`.
pub(crate) fn totals(alloc: Global, bytes: &[u8]) -> Result<(Effect, &[u8]), Stop>
    ensures read { (last : List ℕ) → GivesItem (λ x. (x.0, x.1.now)) result
        (rest_at totals_form last bytes.now) }
    ensures fewer { IfOk result (λ x. length x.1.now < length bytes.now) }
    ensures range { IfOk result (λ x. IsInRange x.0) }
{
    let (search, rest) = search_argument(alloc, bytes)?;
    let (list, rest) = list_argument(alloc, rest)?;
    bare(Call::Totals { search, list }, rest)
}
