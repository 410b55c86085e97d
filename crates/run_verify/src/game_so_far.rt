//! The ghost of a verdict: the game after the marks so far.

ghost use Rattle.run_verify.specs.Games.{Game, game_begun, game_after};
ghost use Rattle.std.specs.Prelude.{[]};

use apcu_model::{Clock, Conf, Mark};
use ghost_log::{Begins, Happens, Log};
use script_read::Scripts;
use std::marker::Model;

/// The game after the marks so far. It exists only in proofs.
pub(crate) type GameSoFar = Log<Games>;

/// What contracts see as a game. No value of this type is made.
pub(crate) struct Games {
    conf: Conf,
}

impl Model for Games {
    ghost Value = { Game };

    ghost view = { λ s. game_begun s.conf [] };
}

/// No mark of these scripts was played, as the clock sees them, on a cache of this shape.
#[derive(Drop)]
pub(crate) struct Unplayed<'a> {
    pub(crate) conf: &'a Conf,
    pub(crate) clock: &'a Clock,
    pub(crate) scripts: &'a Scripts,
}

impl Begins<Games> for Unplayed<'_> {
    ghost use Rattle.script_read.specs.Clock.{all_timed};

    ghost begun = { λ u. game_begun u.conf.now (all_timed u.clock.now u.scripts.now) };
}

// After one more mark, if it can be played.
impl Happens<Games> for Mark {
    ghost after = { λ mark game. game_after game mark };
}
