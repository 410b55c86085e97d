//! The ghost of a replay: the stage that its events have led to.

ghost use Rattle.apcu_model.specs.History.{Stage, start_of};

use apcu_model::{Ask, Conf};
use ghost_log::{Begins, Happens, Log};
use std::marker::Model;

/// The stage after the events so far. It exists only in proofs.
pub type Reached = Log<Stages>;

/// What contracts see as a stage. No value of this type is made.
pub struct Stages {
    conf: Conf,
}

impl Model for Stages {
    ghost Value = { Stage };

    ghost view = { λ s. start_of s.conf };
}

// The beginning, with an empty cache of this shape.
impl Begins<Stages> for Conf {
    ghost begun = { start_of };
}

/// An event, with its request borrowed.
#[derive(Clone, Copy, Drop)]
pub enum Asked<'a> {
    /// A worker made this request at the moment `t`, in seconds, with this mask.
    By {
        worker: u32,
        t: u64,
        ask: Ask<'a>,
        mask: u64,
    },
}

impl Happens<Stages> for Asked<'_> {
    ghost use Rattle.apcu_model.specs.History.{after_event};
    ghost use Rattle.mark_play.specs.Events.{event_in};

    ghost after = { λ event stage. after_event stage (event_in event) };
}
