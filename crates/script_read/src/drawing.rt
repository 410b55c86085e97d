//! Scripts that are made from a number.

ghost use Rattle.std.specs.Prelude.{◌≡◌, ◌<◌, ◌≤◌, ◌∷◌, [], IfOk, ◌++◌, OnOk, length, replicate};
ghost use Rattle.php_graph.specs.declared.kind.Kind.TheVariants as kinds;
ghost use Rattle.apcu_model.specs.declared.limits.TheConstants.{MOST_WORKERS};
ghost use Rattle.script_read.specs.GeneratedScripts.{state_after, drawn_number, value_key};
ghost use Rattle.script_read.specs.GeneratedScripts.{counter_key};
ghost use Rattle.script_read.specs.GeneratedScripts.{draw_of, draws_from, call_of, steps_of_draws};
ghost use Rattle.script_read.specs.GeneratedScripts.{generated};

use crate::call::Call;
use crate::script::{Script, Scripts, Step};
use itoa::Buffer;
use php_graph::{Bytes, Graph, Kind};
use seg_words::words_in;
use std::alloc::{AllocError, Global};

// The state after one more number.
pub(crate) fn state_after(state: u64) -> u64
    ensures { result ≡ state_after state }
{
    state
        .wrapping_mul(6_364_136_223_846_793_005)
        .wrapping_add(1_442_695_040_888_963_407)
}

// The key of the n-th value of a worker. It is gathered in `text`, whose memory serves all keys.
fn value_key(alloc: Global, text: &mut Vec<u8>, worker: u64, n: u64) -> Result<Bytes, AllocError>
    ensures { IfOk result (λ key. key ≡ value_key worker n) }
{
    let mut digits = Buffer::new();
    text.clear();
    text.extend_from_slice(b"p")?;
    text.extend_from_slice(digits.format(worker).as_bytes())?;
    text.extend_from_slice(b".")?;
    text.extend_from_slice(digits.format(n).as_bytes())?;
    Bytes::of(alloc, text.as_slice())
}

// The key of the n-th counter, gathered likewise.
fn counter_key(alloc: Global, text: &mut Vec<u8>, n: u64) -> Result<Bytes, AllocError>
    ensures { IfOk result (λ key. key ≡ counter_key n) }
{
    let mut digits = Buffer::new();
    text.clear();
    text.extend_from_slice(b"c")?;
    text.extend_from_slice(digits.format(n).as_bytes())?;
    Bytes::of(alloc, text.as_slice())
}

// A string of `len` bytes `x`.
fn string_of(alloc: Global, len: usize) -> Result<Graph, AllocError>
    requires { len < 200 }
    ensures { IfOk result (λ graph. graph ≡ kinds.Str (replicate len 120) ∷ []) }
{
    let bytes = Bytes::from_vec(Vec::from_elem(alloc, b'x', len)?);
    let words = 1 + u64::from(words_in(bytes.as_slice().len() as u32));
    Ok(Graph::from_places(Kind::Str(bytes), Vec::new(alloc), words))
}

// The call that a number means.
pub(crate) fn call_of(
    alloc: Global,
    text: &mut Vec<u8>,
    worker: u64,
    workers: u64,
    r: u64,
) -> Result<Call, AllocError>
    requires some { 0 < workers }
    ensures { IfOk result (λ call. call ≡ call_of worker (draw_of workers r)) }
{
    match r % 4 {
        3 => Ok(Call::Inc {
            key: counter_key(alloc, text, r / 4 % 8)?,
            step: (r / 32 % 100) as i64,
            ttl: 0,
        }),
        2 => Ok(Call::StoreOne {
            key: value_key(alloc, text, worker, r / 4 % 16)?,
            value: string_of(alloc, (r / 64 % 200) as usize)?,
            ttl: 0,
            exclusive: false,
        }),
        _ => {
            let owner = r / 64 % workers;
            Ok(Call::FetchOne(value_key(alloc, text, owner, r / 4 % 16)?))
        }
    }
}

// The script of a worker, from a state on.
fn script_of(
    alloc: Global,
    worker: u64,
    workers: u64,
    calls: u32,
    first: u64,
) -> Result<Script, AllocError>
    requires some { 0 < workers }
    requires few { calls ≤ 1000000 }
    ensures { IfOk result (λ script.
        script ≡ steps_of_draws worker (draws_from workers calls first)) }
{
    let mut script = Script::new(alloc);
    let mut text = Vec::new(alloc);
    let mut state = first;
    for _call in 0..calls {
        state = state_after(state);
        let call = call_of(alloc, &mut text, worker, workers, state >> 33)?;
        script.push(Step {
            t: 0,
            start: 0,
            call,
        })?;
    }
    Ok(script)
}

/// The scripts of `workers` workers with `calls` calls each, made from a seed: each worker stores
/// short strings under keys of its own, fetches those of all, and counts on eight counters.
pub fn generate(alloc: Global, seed: u64, workers: u32, calls: u32) -> Result<Scripts, AllocError>
    requires some { 0 < workers }
    requires most { workers ≤ MOST_WORKERS }
    requires few { calls ≤ 1000000 }
    ensures { IfOk result (λ scripts. scripts ≡ generated seed workers calls) }
{
    let mut scripts = Scripts::new(alloc);
    for worker in 0..workers {
        let first = seed.wrapping_add(u64::from(worker));
        let script = script_of(alloc, u64::from(worker), u64::from(workers), calls, first)?;
        scripts.push(script)?;
    }
    Ok(scripts)
}
