//! What the program's arguments ask for, or why they are refused.

ghost use Rattle.std.specs.Prelude.{◌≡◌, ◌≤◌, None, Some, IfOk, IfSome, IsErrOf};
ghost use Rattle.apcu_model.specs.Conf.{IsGood};
ghost use Rattle.clap.specs.Words.{found_of, rows_of};
ghost use Rattle.conf_read.specs.Options.{clock_of, conf_in, is_in_order, settings_in, settings_of};
ghost use Rattle.conf_read.specs.Tasks.{SuitsTask};

use crate::command::matches_of;
use crate::fault::ConfFault;
use crate::options::{SEGMENTS, SHM_SIZE, SLOTS, TTL, USE_REQUEST_TIME, given};
use crate::task::{Task, task_in};
use apcu_model::{Clock, Conf, MOST_WORDS};
use clap::ArgMatches;
use std::alloc::Global;

/// What the program's arguments ask for.
#[derive(Clone, Copy, Debug, PartialEq, Eq)]
pub struct Settings {
    /// The shape of the cache: `--shm-size`, `--segments`, `--slots` and `--ttl`.
    pub conf: Conf,
    /// What a call's moment is: `--use-request-time`.
    pub clock: Clock,
    /// What the run is for: `--generate` with `--workers` and `--calls`, `--verify`, or a play of
    /// the input with `--preload` and `--map`.
    pub task: Task,
}

// Whether this many slots fit into one of this many segments of this many words, and the segments
// are not too large together.
fn in_order(words: u32, segments: u32, slots: u32) -> bool
    ensures { result ≡ is_in_order words segments slots }
{
    slots % 2 == 0
        && u64::from(slots) + 16 <= u64::from(words)
        && u64::from(segments) * u64::from(words) <= u64::from(MOST_WORDS)
}

// The cache's shape by what clap found.
fn conf_in(matches: &ArgMatches<'_>) -> Option<Conf>
    ensures is { result ≡ conf_in (rows_of (found_of matches.now)) }
    ensures good { IfSome result (λ conf. IsGood conf) }
{
    let words = given(matches, SHM_SIZE)? as u32;
    let segments = given(matches, SEGMENTS)? as u32;
    let slots = given(matches, SLOTS)? as u32;
    let ttl = given(matches, TTL)? as u32;
    if !in_order(words, segments, slots) {
        return None;
    }
    Some(Conf {
        words: segments * words,
        slots,
        ttl,
        segments,
    })
}

// What a call's moment is for this number.
fn clock_of(number: u64) -> Clock
    ensures { result ≡ clock_of number }
{
    if number == 0 {
        Clock::Line
    } else {
        Clock::Request
    }
}

// What clap found, as settings.
fn settings_in(matches: &ArgMatches<'_>) -> Option<Settings>
    ensures is { result ≡ settings_in (rows_of (found_of matches.now)) }
    ensures good { IfSome result (λ s. IsGood s.conf) }
    ensures large { IfSome result (λ s. SuitsTask s.conf s.task) }
{
    let conf = conf_in(matches)?;
    let clock = clock_of(given(matches, USE_REQUEST_TIME)?);
    let task = task_in(matches, &conf)?;
    Some(Settings { conf, clock, task })
}

/// What the program's arguments ask for, its name first: `--shm-size SIZE` is PHP's `apc.shm_size`,
/// the size of each segment (default 32M), `--segments N` PHP's `apc.shm_segments` (1), `--slots N`
/// the number of hash chains (4096), `--ttl N` PHP's `apc.ttl` in seconds (0), and
/// `--use-request-time B` PHP's `apc.use_request_time` (0): whether a call's moment is the second
/// of the call (0) or its request's start (1). `--generate N` asks for a run of scripts that are
/// made from the number N, for `--workers N` workers (4) of `--calls N` calls each (1000).
/// `--verify N` asks for a verdict: the first N bytes of the input are scripts, and the rest is an
/// output that is judged. Without either the input's scripts are played: with `--preload N` its
/// first N bytes are a bundle whose values are loaded before the scripts after it begin, and with
/// `--map B` (0) the map of the cache's words follows the output (1) or does not (0). Every option
/// is parsed in any run. Options may be in any order, each at most once.
///
/// A size is one to ten digits followed by at most one of `K M G k m g`, times 1024, 1024^2 or
/// 1024^3; it is a multiple of 16 bytes from 256 to 134,217,728. The other numbers are one to
/// twenty digits. Segments are from 1 to 64, and have 134,217,728 bytes at most together. Slots are
/// even, from 2 to 1,048,576, and leave 16 words of 8 bytes in the first segment. A ttl is below
/// 2^32, and `--use-request-time` is 0 or 1. N of `--generate` is below 2^64; workers are from 1 to
/// 64, and calls at most 1,000,000. A generated run has one segment of 8,388,608 bytes or more and
/// at most 4096 slots. N of `--verify` and `--preload` is at most 67,108,864, and `--map` is 0 or
/// 1. `--generate` and `--verify` exclude each other, and neither may be combined with `--preload`
/// or with a map.
///
/// It returns `Usage` exactly if there is no argument, clap finds a fault in them (a request for
/// help is one), a value is none of these, or two do not agree, if there is memory to read the
/// arguments.
pub fn read_settings(alloc: Global, words: &[String]) -> Result<Settings, ConfFault>
    ensures settings { IfOk result (λ settings. settings_of words.now ≡ Some settings) }
    ensures usage { IsErrOf result ConfFault.Usage → settings_of words.now ≡ None }
    ensures good { IfOk result (λ settings. IsGood settings.conf) }
    // A generated run's cache has room for what its scripts store, and its numbers are in bounds.
    ensures large { IfOk result (λ settings. SuitsTask settings.conf settings.task) }
{
    let matches = matches_of(alloc, words)?;
    match settings_in(&matches) {
        Some(settings) => Ok(settings),
        None => Err(ConfFault::Usage),
    }
}
