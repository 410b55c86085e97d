//! The rule over the shared words, and the kinds of steps that keep it.

use crate::views::{Start, View};
use apcu_model::Event;
use atomic_table::{Join, Play, Split, TableRule};
use std::marker::{Brand, PhantomData};

/// The rule over the shared words, in seven parts. Each kind of step below keeps it.
pub struct SharedWords;

impl TableRule<u64, View, Start> for SharedWords {
    ghost use Rattle.pin_table.specs.Rule.{IsRuled};
    ghost use Rattle.pin_table.specs.Views.{first_view};

    ghost holds = { λ _. IsRuled };

    ghost first = { first_view };
}

// The writer reads its own state.
pub struct Look;

impl Play<u64, View> for Look {
    ghost use Rattle.pin_table.specs.Plays.{Looks};

    ghost then = { Looks };
}

// The writer loads a word.
pub struct Read;

impl Play<u64, View> for Read {
    ghost use Rattle.pin_table.specs.Plays.{ReadsTold};

    ghost then = { ReadsTold };
}

// The writer stores a word.
pub struct Write;

impl Play<u64, View> for Write {
    ghost use Rattle.pin_table.specs.Plays.{Writes};

    ghost then = { Writes };
}

// The writer loads a pin count, and its event keeps the reading.
pub struct Probe;

impl Play<u64, View> for Probe {
    ghost use Rattle.pin_table.specs.Plays.{Probes};

    ghost then = { Probes };
}

// The writer adds one to the pin count of a block.
pub struct Pin;

impl Play<u64, View> for Pin {
    ghost use Rattle.pin_table.specs.Plays.{Pins};

    ghost then = { Pins };
}

// A worker that copies loads a word of its image.
pub struct CopyRead;

impl Play<u64, View> for CopyRead {
    ghost use Rattle.pin_table.specs.Plays.{Copies};

    ghost then = { Copies };
}

// A worker that copies takes one from the pin count.
pub struct Release;

impl Play<u64, View> for Release {
    ghost use Rattle.pin_table.specs.Plays.{Releases};

    ghost then = { Releases };
}

// A new worker is made.
pub struct Make;

impl Split<View> for Make {
    ghost use Rattle.pin_table.specs.Views.{on_state, with_log, from_log, newcomer, with_newcomer};

    ghost left = { on_state (λ d. with_log d (with_newcomer d.log)) };

    ghost right = { from_log newcomer };
}

// A pass is taken by the writer.
pub struct Take;

impl Join<View> for Take {
    ghost use Rattle.pin_table.specs.Views.{takes_in};
    ghost use Rattle.pin_table.specs.declared.views.View.TheVariants.{Spent};

    ghost both = { takes_in };

    ghost spent = { Spent };
}

// A pass is taken in at the end.
pub struct Close;

impl Join<View> for Close {
    ghost use Rattle.pin_table.specs.Views.{closes};
    ghost use Rattle.pin_table.specs.declared.views.View.TheVariants.{Spent};

    ghost both = { closes };

    ghost spent = { Spent };
}

// Which event it is. The caller of a step picks it.
pub trait Saying {
    ghost use Rattle.apcu_model.specs.declared.request.Event.{Event};

    ghost event: { Event };
}

impl Saying for Brand {
    ghost use Rattle.pin_table.specs.Events.{event};
    ghost use Rattle.apcu_model.specs.declared.request.Request.TheVariants.{Retire};

    ghost event = { event 0 0 Retire 0 };
}

// The worker in the hand makes its event, and gets its pass back.
pub struct Give<Q> {
    of: PhantomData<Q>,
}

impl<Q: Saying> Split<View> for Give<Q> {
    ghost use Rattle.pin_table.specs.Views.{on_state, rested, from_log, with_event, known_after};

    ghost left = { on_state (λ d. rested d (with_event d.log Q.event)) };

    ghost right = { from_log (λ b. known_after b Q.event) };
}

// The pass is returned as it was.
pub struct GiveBack;

impl Split<View> for GiveBack {
    ghost use Rattle.std.specs.Prelude.{None};
    ghost use Rattle.pin_table.specs.Views.{on_state, rested, from_log, with_hand, in_hand};

    ghost left = { on_state (λ d. rested d (with_hand d.log None)) };

    ghost right = { from_log (λ b. in_hand b.hand) };
}

// The pass is returned, and has seen all.
pub struct GiveSeen;

impl Split<View> for GiveSeen {
    ghost use Rattle.std.specs.Prelude.{None};
    ghost use Rattle.pin_table.specs.Views.{on_state, rested, from_log, with_hand, seen_all};

    ghost left = { on_state (λ d. rested d (with_hand d.log None)) };

    ghost right = { from_log seen_all };
}

// The worker in the hand makes its event, and copies the pinned block.
pub struct CopyOut<Q> {
    of: PhantomData<Q>,
}

impl<Q: Saying> Split<View> for CopyOut<Q> {
    ghost use Rattle.pin_table.specs.Views.{on_state, from_state, copied, reader_after};

    ghost left = { on_state (λ d. copied d Q.event) };

    ghost right = { from_state (λ d. reader_after d Q.event) };
}
