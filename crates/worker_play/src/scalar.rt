//! A value that a fetch returns at once: its graph, and its text.

ghost use Rattle.std.specs.Prelude.{◌≡◌, ◌++◌, IsTrue, IfOk, OnOk};
ghost use Rattle.php_graph.specs.Building.{nothing_drafted, item_fits, pushed, wants_of};
ghost use Rattle.php_graph.specs.declared.item.Wants.TheVariants.{Value, Done};
ghost use Rattle.apcu_model.specs.declared.request.Reply.TheVariants.{Found};
ghost use Rattle.reply_text.specs.Replies.{fetched_one};
ghost use Rattle.shared_cache.specs.PinnedFetches.{scalar_graph};

use cache_core::Scalar;
use notation::ByteOut;
use php_graph::{Builder, Graph, Item};
use reply_text::{write_flag, write_number};
use std::alloc::{AllocError, Global};

// A graph of one place.
fn one_place(alloc: Global, item: Item) -> Result<Graph, AllocError>
    requires value { IsTrue (item_fits Value item) }
    requires whole { wants_of (pushed nothing_drafted item) ≡ Done }
    ensures { IfOk result (λ g. g ≡ (pushed nothing_drafted item).places) }
{
    let mut builder = Builder::new(alloc);
    match builder.push(item) {
        Ok(()) => Ok(builder.seal()),
        Err(_) => Err(AllocError),
    }
}

pub(crate) fn graph_of_scalar(alloc: Global, scalar: Scalar) -> Result<Graph, AllocError>
    ensures { IfOk result (λ g. g ≡ scalar_graph scalar) }
{
    match scalar {
        Scalar::Null => one_place(alloc, Item::Null),
        Scalar::Bool(b) => one_place(alloc, Item::Bool(b)),
        Scalar::Int(n) => one_place(alloc, Item::Int(n)),
    }
}

// Appends the value's text, and that it was found.
pub(crate) fn write_scalar(out: &mut ByteOut, scalar: Scalar) -> Result<(), AllocError>
    ensures { OnOk result (out.new ≡ out.old ++ fetched_one (Found (scalar_graph scalar))) }
{
    match scalar {
        Scalar::Null => out.push(b"N;b:1;"),
        Scalar::Bool(b) => {
            write_flag(out, b)?;
            write_flag(out, true)
        }
        Scalar::Int(n) => write_number(out, Some(n)),
    }
}
