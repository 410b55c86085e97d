//! The message of a run that was not played to its end: one line.

ghost use Rattle.std.specs.Prelude.{◌≡◌, ◌++◌};
ghost use Rattle.std.specs.Fmt.{decimal};
ghost use Rattle.apcu_play.specs.Message.{message_of, reason_text, script_message, bundle_message};
ghost use Rattle.apcu_play.specs.Run.{TellsMessage};

use crate::printing::write_text;
use crate::status::Status;
use io_edges::Sink;
use itoa::Buffer;
use notation::Reason;

/// Prints the message of a status on `err`, one line. It takes no memory.
pub fn tell<E: Sink>(err: &mut E, status: Status)
    ensures { TellsMessage (message_of status)
        (E.held err.old) (E.held err.new) (E.faults err.old) (E.faults err.new) }
{
    let _all = write_text(err, status.message());
}

// Prints a fault on `err`, a line that begins with `begins`, with the fault's byte, from 0, and its
// reason.
fn tell_place<E: Sink>(err: &mut E, begins: &[u8], place: u64, reason: Reason)
    ensures { TellsMessage (begins.now ++ (decimal place ++ reason_text reason))
        (E.held err.old) (E.held err.new) (E.faults err.old) (E.faults err.new) }
{
    if !write_text(err, begins) {
        return;
    }
    let mut digits = Buffer::new();
    if !write_text(err, digits.format(place).as_bytes()) {
        return;
    }
    let _all = write_text(err, ending_of(reason));
}

/// Prints the first fault of a script on `err`, a line with its byte, from 0, and its reason. It
/// takes no memory.
pub fn tell_fault<E: Sink>(err: &mut E, place: u64, reason: Reason)
    ensures { TellsMessage (script_message place reason)
        (E.held err.old) (E.held err.new) (E.faults err.old) (E.faults err.new) }
{
    tell_place(err, b"apcu_run: script: byte ", place, reason);
}

/// Prints the first fault of a bundle on `err`, a line with its byte, from 0, and its reason. It
/// takes no memory.
pub fn tell_unloaded<E: Sink>(err: &mut E, place: u64, reason: Reason)
    ensures { TellsMessage (bundle_message place reason)
        (E.held err.old) (E.held err.new) (E.faults err.old) (E.faults err.new) }
{
    tell_place(err, b"apcu_run: bundle: byte ", place, reason);
}

// How the message ends.
fn ending_of(reason: Reason) -> &'static [u8]
    ensures { result.now ≡ reason_text reason }
{
    match reason {
        Reason::End => b": end\n",
        Reason::Tag => b": tag\n",
        Reason::Number => b": number\n",
        Reason::Length => b": length\n",
        Reason::Mark => b": mark\n",
        Reason::Depth => b": depth\n",
        Reason::Places => b": places\n",
        Reason::Target => b": target\n",
        Reason::Repeat => b": repeat\n",
        Reason::Class => b": class\n",
        Reason::Integer => b": integer\n",
        Reason::Line => b": line\n",
        Reason::Separator => b": separator\n",
        Reason::Argument => b": argument\n",
        Reason::Workers => b": workers\n",
        Reason::Generator => b": generator\n",
    }
}
