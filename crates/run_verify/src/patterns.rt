//! The searches for the patterns that calls are made with.

ghost use Rattle.std.specs.Prelude.{◌≡◌, IfErr, OnOk};
ghost use Rattle.script_read.specs.Patterns.{HasRefusable};
ghost use Rattle.run_verify.specs.Seats.{IsSearching, KnowsPattern};
ghost use Rattle.run_verify.specs.declared.fault.VerifyFault.TheVariants as faults;

use crate::fault::VerifyFault;
use crate::seat::Seat;
use row_search::Maker;
use script_read::Script;
use script_search::search_of;
use std::alloc::Global;

// Makes the search for the call that the seat is at, if it has made no request yet.
pub(crate) fn search_for<M: Maker>(
    alloc: Global,
    maker: &M,
    script: &Script,
    seat: &mut Seat,
) -> Result<(), VerifyFault>
    requires { KnowsPattern script.now seat.old }
    ensures made { OnOk result (IsSearching script.now seat.old seat.new) }
    ensures pattern { IfErr result (λ fault. fault ≡ faults.Pattern
        → HasRefusable (M.may_refuse maker.now) script.now) }
{
    if seat.step >= script.len() || !seat.replies.is_empty() {
        return Ok(());
    }
    let search = search_of(alloc, maker, &script.at(seat.step).call)?;
    seat.search = search;
    Ok(())
}
