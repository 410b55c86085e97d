//! A worker's right to its next events.

ghost use Rattle.std.specs.Prelude.{◌≡◌};
ghost use Rattle.pin_table.specs.Events.{HasRetired};

use crate::views::View;
use atomic_table::Seat;
use std::marker::Model;

/// The right of a worker that copies nothing to its next events. If it is dropped, the worker never
/// ends, and the table is never closed.
///
/// Contracts see the table, the worker, how many events are left, the history that the worker has
/// seen and its own events in it.
#[derive(Drop)]
pub struct Pass {
    pub(crate) seat: Seat<u64, View>,
    pub(crate) worker: u32,
    pub(crate) left: u32,
}

impl Model for Pass {
    ghost use Rattle.std.specs.Prelude.{◌≡◌, []};
    ghost use Rattle.pin_table.specs.Values.{PassView};
    ghost use Rattle.pin_table.specs.Views.{known_of};
    ghost use Rattle.pin_table.specs.declared.views.View.TheVariants.{Idle};

    ghost Value = { PassView };

    ghost view = { λ p. record { table = p.seat.table_id; known = known_of p.seat.me.0 } };

    ghost invariant = { λ p.
        (p.seat.me ≡ (Idle (known_of p.seat.me.0), []))
        × (p.worker ≡ (known_of p.seat.me.0).worker)
        × (p.left ≡ (known_of p.seat.me.0).left) };
}

impl Pass {
    /// The worker's number, from 0.
    pub fn worker(&self) -> u32
        ensures { result ≡ self.now.known.worker }
    {
        self.worker
    }

    /// How many events the worker may still make.
    pub fn left(&self) -> u32
        ensures { result ≡ self.now.known.left }
    {
        self.left
    }
}

/// What is left of a worker that has ended: its last event is its end. It copies nothing, and makes
/// no further event.
#[derive(Drop)]
pub struct Ended {
    pub(crate) pass: Pass,
}

impl Model for Ended {
    ghost use Rattle.pin_table.specs.Values.{PassView};
    ghost use Rattle.pin_table.specs.Events.{HasRetired};

    ghost Value = { PassView };

    ghost view = { λ e. e.pass };

    ghost invariant = { λ e. HasRetired e.pass.known.worker e.pass.known.own };
}

impl Ended {
    // The last event of this pass was its worker's end, so no window of it is open.
    pub(crate) fn of(pass: Pass) -> Ended
        requires { HasRetired pass.known.worker pass.known.own }
        ensures { result ≡ pass }
    {
        Ended { pass }
    }
}
