//! How a run ended.

ghost use Rattle.std.specs.Prelude.{◌≡◌, ◌≢◌, ℕ, ◌+◌, ◌<◌, ◌^◌};
ghost use Rattle.notation.specs.declared.fault.Reason.{Reason};
ghost use Rattle.apcu_play.specs.Causes.{ending_by};
ghost use Rattle.apcu_play.specs.Message.{message_of, script_message, bundle_message};
ghost use Rattle.apcu_play.specs.Run.{TellsMessage};

use crate::messages::{tell, tell_fault, tell_unloaded};
use crate::status::Status;
use io_edges::Sink;
use notation::Reason;
use script_read::ScriptFault;

// How a run ended, with the first fault of a script or a bundle, if there is one.
#[derive(Clone, Copy)]
pub(crate) struct Ending {
    pub(crate) status: Status,
    pub(crate) place: u64,
    pub(crate) reason: Reason,
}

impl Ending {
    // An ending other than by a script's fault.
    pub(crate) fn of(status: Status) -> Ending
        ensures { result.status ≡ status }
    {
        Ending {
            status,
            place: 0,
            reason: Reason::End,
        }
    }
}

// How a run ends because of a fault in what follows `ahead` bytes of its input, or because there
// was no memory to read it.
pub(crate) fn ending_by(status: Status, ahead: u64, fault: &ScriptFault) -> Ending
    requires { (place : ℕ) (reason : Reason) → fault.now ≡ ScriptFault.Bad place reason
        → ahead + place < 2 ^ 64 }
    ensures { result ≡ ending_by status ahead fault.now }
{
    match fault {
        ScriptFault::Bad { place, reason } => Ending {
            status,
            place: ahead + *place,
            reason: *reason,
        },
        ScriptFault::Memory => Ending {
            status: Status::NoMemory,
            place: 0,
            reason: Reason::End,
        },
    }
}

// Prints how a run ended, if it is not done.
pub(crate) fn tell_ending<E: Sink>(err: &mut E, ending: Ending)
    ensures silent { ending.status ≡ Status.Done
        → (E.held err.new ≡ E.held err.old) × (E.faults err.new ≡ E.faults err.old) }
    ensures message { ending.status ≢ Status.Done → ending.status ≢ Status.Script
        → ending.status ≢ Status.Bundle → TellsMessage (message_of ending.status)
        (E.held err.old) (E.held err.new) (E.faults err.old) (E.faults err.new) }
    ensures script { ending.status ≡ Status.Script
        → TellsMessage (script_message ending.place ending.reason)
        (E.held err.old) (E.held err.new) (E.faults err.old) (E.faults err.new) }
    ensures bundle { ending.status ≡ Status.Bundle
        → TellsMessage (bundle_message ending.place ending.reason)
        (E.held err.old) (E.held err.new) (E.faults err.old) (E.faults err.new) }
{
    match ending.status {
        Status::Done => {}
        Status::Script => tell_fault(err, ending.place, ending.reason),
        Status::Bundle => tell_unloaded(err, ending.place, ending.reason),
        status => tell(err, status),
    }
}
