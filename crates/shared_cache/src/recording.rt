//! The journal, as an event writes it.

ghost use Rattle.std.specs.Prelude.{◌≡◌, ◌+◌, ◌<◌, ◌^◌, [], ◌∷◌, ◌++◌};

use apcu_model::{Journal, Mark};
use pin_table::Writer;
use seg_words::Segment;

// Records the event that ends next: its worker, and the workers that its probes found.
pub(crate) fn record_event(journal: &mut Journal, w: &Writer<'_>)
    requires room { 0 < journal.old.room }
    ensures marks { journal.new.marks ≡ journal.old.marks
        ++ (record { worker = w.now.worker; mask = w.now.seat.now.state.mask }) ∷ [] }
    ensures room { journal.new.room + 1 ≡ journal.old.room }
    ensures small { w.now.seat.now.state.mask < 2 ^ 64 }
{
    let mark = Mark {
        worker: w.worker,
        mask: w.mask(),
    };
    journal.push(mark);
}
