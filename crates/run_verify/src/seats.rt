//! The seats of all workers.

ghost use Rattle.std.specs.Prelude.{◌≡◌, length, IfOk};
ghost use Rattle.run_verify.specs.Games.{BeginsGame, KnowsEnd, TellsAll};

use crate::seat::Seat;
use notation::ByteOut;
use script_read::Scripts;
use std::alloc::{AllocError, Global};

/// A seat for each worker, before its first call. They begin a game of these scripts on any cache
/// to which no request was made.
pub(crate) fn seats_for(alloc: Global, scripts: &Scripts) -> Result<Vec<Seat>, AllocError>
    ensures { IfOk result (λ seats. BeginsGame scripts.now seats.items) }
{
    let mut seats = Vec::with_capacity(alloc, scripts.len() as usize)?;
    for _worker in 0..scripts.len() {
        seats.push(Seat::first(alloc)?)?;
    }
    Ok(seats)
}

/// Whether no worker wants anything more.
pub(crate) fn all_done(scripts: &Scripts, seats: &[Seat]) -> bool
    requires { length seats.now ≡ length scripts.now }
    ensures { KnowsEnd scripts.now seats.now result }
{
    for worker in 0..scripts.len() {
        if !seats[worker as usize].is_done(scripts.at(worker)) {
            return false;
        }
    }
    true
}

/// For each worker the lines of its calls, if all have ended.
pub(crate) fn into_texts(alloc: Global, seats: Vec<Seat>) -> Result<Vec<ByteOut>, AllocError>
    ensures { IfOk result (λ texts. TellsAll seats.items texts.items) }
{
    let mut texts = Vec::with_capacity(alloc, seats.len())?;
    for seat in seats {
        texts.push(seat.into_text())?;
    }
    Ok(texts)
}
