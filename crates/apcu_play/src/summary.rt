//! Printing the summary of a generated run.

ghost use Rattle.std.specs.Prelude.{◌≡◌, ◌++◌, codes, OnOk};
ghost use Rattle.std.specs.Fmt.{decimal, signed_decimal};
ghost use Rattle.play_laws.specs.Summary.{counter_lines, summary_text};
ghost use Rattle.crew_play.specs.GeneratedRuns.{summary_in};

use crew_play::Watched;
use itoa::Buffer;
use notation::ByteOut;
use std::alloc::AllocError;

/// Writes the lines of a summary: the workers, all their calls, the insertions, and each counter.
pub(crate) fn write_summary(
    out: &mut ByteOut,
    workers: u32,
    calls: u32,
    watched: &Watched,
) -> Result<(), AllocError>
    ensures { OnOk result
        (out.new ≡ out.old ++ summary_text workers calls (summary_in watched.now)) }
{
    write_count(out, b"workers ", u64::from(workers))?;
    write_count(out, b"calls ", u64::from(workers) * u64::from(calls))?;
    write_count(out, b"inserts ", watched.inserts)?;
    write_counters(out, &watched.counters)
}

// A line of a name and a number.
fn write_count(out: &mut ByteOut, name: &[u8], count: u64) -> Result<(), AllocError>
    ensures { OnOk result (out.new ≡ out.old ++ (name.now ++ (decimal count ++ codes "\n"))) }
{
    let mut digits = Buffer::new();
    out.push(name)?;
    out.push(digits.format(count).as_bytes())?;
    out.push(b"\n")
}

// A line for each counter.
fn write_counters(out: &mut ByteOut, counters: &[i64]) -> Result<(), AllocError>
    ensures { OnOk result (out.new ≡ out.old ++ counter_lines 0 counters.now) }
{
    for n in 0..counters.len() {
        write_counter(out, n, &counters[n])?;
    }
    Ok(())
}

// A counter's line: its number and its value.
fn write_counter(out: &mut ByteOut, n: usize, value: &i64) -> Result<(), AllocError>
    ensures { OnOk result (out.new ≡ out.old
        ++ (codes "counter " ++ decimal n ++ codes " " ++ signed_decimal value.now ++ codes "\n")) }
{
    let mut digits = Buffer::new();
    out.push(b"counter ")?;
    out.push(digits.format(n).as_bytes())?;
    out.push(b" ")?;
    out.push(digits.format(*value).as_bytes())?;
    out.push(b"\n")
}
