//! Writing values.

ghost use Rattle.std.specs.Prelude.{◌≡◌, ◌<◌, ◌^◌, ◌-◌, ◌∷◌, ◌++◌, length, reverse, OnOk, OnErr};
ghost use Rattle.notation.specs.Notation.{text_from};
ghost use Rattle.php_graph.specs.Graph.{levels};
ghost use Rattle.notation.specs.Appending.{Extends};
ghost use Rattle.notation.specs.Writing.{AreBegun, EndsSomewhere, IsChildBegun, IsStepMade};

use crate::byte_out::ByteOut;
use crate::pieces::{put_key_of, put_number, put_start};
use php_graph::{Child, Graph};
use std::alloc::AllocError;

/// Appends the value's text, with `base` added to each number in `R:` and `r:`. With the base 0
/// this is the text of the value by itself; if the value is a member of an array that is written
/// piece by piece, the base is the number of places before it. Without memory `out` is unchanged.
pub fn write_value(g: &Graph, base: u64, out: &mut ByteOut) -> Result<(), AllocError>
    requires { base < 2 ^ 56 }
    ensures ok { OnOk result (out.new ≡ out.old ++ text_from base g.now) }
    ensures err { OnErr result (out.new ≡ out.old) }
{
    let before = out.as_slice().len();
    match put_graph(g, base, out) {
        Ok(()) => Ok(()),
        Err(fault) => {
            out.cut(before);
            Err(fault)
        }
    }
}

// A container whose head is written, and the number of its next member.
#[derive(Clone, Copy, Debug)]
struct Frame {
    place: u32,
    next: u32,
}

fn put_graph(g: &Graph, base: u64, out: &mut ByteOut) -> Result<(), AllocError>
    requires { base < 2 ^ 56 }
    ensures ok { OnOk result (out.new ≡ out.old ++ text_from base g.now) }
    ensures err { OnErr result (Extends out.old out.new) }
{
    let _places = g.places();
    let mut frames: Vec<Frame> = Vec::new(out.alloc());
    put_child(g, base, Child::Own(1), &mut frames, out)?;
    'writing: while let Some(frame) = frames.pop() {
        step(g, base, frame, &mut frames, out)?;
    }
    Ok(())
}

// The next member of the container, or its end.
fn step(
    g: &Graph,
    base: u64,
    frame: Frame,
    frames: &mut Vec<Frame>,
    out: &mut ByteOut,
) -> Result<(), AllocError>
    requires base { base < 2 ^ 56 }
    requires begun { AreBegun g.now (frame ∷ reverse frames.old.items) }
    ensures ok { OnOk result (IsStepMade base g.now (frame
        ∷ reverse frames.old.items) (reverse frames.new.items) out.old out.new) }
    ensures err { OnErr result (Extends out.old out.new) }
{
    match put_key_of(g.kind(frame.place), frame.next, out)? {
        None => out.push(b"}"),
        Some(child) => {
            frames.push(Frame {
                place: frame.place,
                next: frame.next + 1,
            })?;
            put_child(g, base, child, frames, out)
        }
    }
}

// What a member holds, up to its own members.
fn put_child(
    g: &Graph,
    base: u64,
    child: Child,
    frames: &mut Vec<Frame>,
    out: &mut ByteOut,
) -> Result<(), AllocError>
    requires base { base < 2 ^ 56 }
    requires ends { EndsSomewhere (levels - length frames.old.items) g.now child }
    ensures ok { OnOk result (IsChildBegun base g.now child (reverse frames.old.items)
        (reverse frames.new.items) out.old out.new) }
    ensures err { OnErr result (Extends out.old out.new) }
{
    match child {
        Child::Back(x) => put_number(b"R:", u64::from(x) + base, out),
        Child::Own(x) => {
            if put_start(g.kind(x), base, out)? {
                frames.push(Frame { place: x, next: 0 })?;
            }
            Ok(())
        }
    }
}
