//! The task of a run, from what clap found.

ghost use Rattle.std.specs.Prelude.{◌≡◌, ◌≤◌, true, IfSome};
ghost use Rattle.clap.specs.Words.{found_of, rows_of};
ghost use Rattle.apcu_model.specs.declared.limits.TheConstants.{LONGEST_INPUT, MOST_WORKERS};
ghost use Rattle.conf_read.specs.Options.{task_in};
ghost use Rattle.conf_read.specs.Tasks.{is_large, is_plain, task_by, SuitsTask};

use crate::options::{CALLS, GENERATE, MAP, PRELOAD, VERIFY, WORKERS, given, given_if};
use apcu_model::Conf;
use clap::ArgMatches;

/// The task of a run.
#[derive(Clone, Copy, Debug, PartialEq, Eq)]
pub enum Task {
    /// To play the scripts of the input.
    Play {
        /// How many bytes of a bundle precede the scripts, `--preload`: its values are loaded
        /// before any script begins. `None` if there is no bundle.
        preload: Option<u64>,
        /// Whether the map of the cache's words is printed after the journal, `--map`.
        map: bool,
    },
    /// To play scripts that are made from a number, and to sum them up; the input is not read.
    Generate {
        /// The number, `--generate`.
        seed: u64,
        /// How many workers play, `--workers`.
        workers: u32,
        /// How many calls each of them makes, `--calls`.
        calls: u32,
    },
    /// To judge an output of the scripts that precede it; nothing is played.
    Verify {
        /// How many bytes of the input are scripts, `--verify`.
        scripts: u64,
    },
}

// The options of a play: how many bytes of a bundle, and whether a map is printed.
#[derive(Clone, Copy)]
struct Choices {
    bundle: Option<u64>,
    map: u64,
}

// Whether neither is used.
fn is_plain(choices: Choices) -> bool
    ensures { result ≡ is_plain choices }
{
    choices.bundle.is_none() && choices.map == 0
}

// Whether generated scripts fit into a cache of this shape.
fn is_large(conf: &Conf) -> bool
    ensures is { result ≡ is_large conf.now }
    ensures large { result ≡ true
        → (conf.now.segments ≡ 1) × (1048576 ≤ conf.now.words) × (conf.now.slots ≤ 4096) }
{
    conf.segments == 1 && conf.words >= 1_048_576 && conf.slots <= 4096
}

// The task by the values of `--generate` and `--verify`, if they are used, the numbers of a
// generated run, and the options of a play.
fn task_by(
    conf: &Conf,
    seed: Option<u64>,
    workers: u32,
    calls: u32,
    judged: Option<u64>,
    choices: Choices,
) -> Option<Task>
    requires some { 1 ≤ workers }
    requires few { workers ≤ MOST_WORKERS }
    requires short { calls ≤ 1000000 }
    requires judged { IfSome judged (λ n. n ≤ LONGEST_INPUT) }
    requires bundle { IfSome choices.bundle (λ n. n ≤ LONGEST_INPUT) }
    ensures is { result ≡ task_by conf.now seed workers calls judged choices }
    ensures suits { IfSome result (λ task. SuitsTask conf.now task) }
{
    match seed {
        None => match judged {
            None => Some(Task::Play {
                preload: choices.bundle,
                map: choices.map != 0,
            }),
            Some(scripts) => {
                if is_plain(choices) {
                    Some(Task::Verify { scripts })
                } else {
                    None
                }
            }
        },
        Some(seed) => {
            if is_large(conf) && judged.is_none() && is_plain(choices) {
                Some(Task::Generate {
                    seed,
                    workers,
                    calls,
                })
            } else {
                None
            }
        }
    }
}

/// The task by what clap found, for a cache of this shape.
pub(crate) fn task_in(matches: &ArgMatches<'_>, conf: &Conf) -> Option<Task>
    ensures is { result ≡ task_in conf.now (rows_of (found_of matches.now)) }
    ensures suits { IfSome result (λ task. SuitsTask conf.now task) }
{
    let seed = given_if(matches, GENERATE)?;
    let workers = given(matches, WORKERS)? as u32;
    let calls = given(matches, CALLS)? as u32;
    let bundle = given_if(matches, PRELOAD)?;
    let judged = given_if(matches, VERIFY)?;
    let map = given(matches, MAP)?;
    task_by(conf, seed, workers, calls, judged, Choices { bundle, map })
}
