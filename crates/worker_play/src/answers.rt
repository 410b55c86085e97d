//! Results of calls on pools for their keys: what was found, or the call's default.

ghost use Rattle.std.specs.Prelude.{◌≡◌, IfOk, OnOk};
ghost use Rattle.apcu_model.specs.declared.request.Reply.{Reply};
ghost use Rattle.reply_text.specs.PoolReplies.{value_or_default};
ghost use Rattle.reply_text.specs.Replies.{fetched, noted};
ghost use Rattle.worker_play.specs.Pools.{answer_value, answers_noted};

use php_graph::{Bytes, Graph};
use reply_text::{Notes, Value};
use std::alloc::AllocError;

// A result for a key. The default is borrowed, since many keys may have it.
#[derive(Drop)]
pub(crate) enum Answer<'a> {
    Found(Graph),
    Default(&'a Graph),
}

impl Value for Answer<'_> {
    ghost kinds_of = { λ answer. answer_value answer };

    fn graph(&self) -> &Graph {
        match self {
            Answer::Found(value) => value,
            Answer::Default(value) => *value,
        }
    }
}

// Notes the value that a fetch found for a key, or else the default.
pub(crate) fn note_answer<'a, 'b>(
    answers: &mut Notes<'a, Answer<'b>>,
    key: &'a Bytes,
    found: Result<Option<Graph>, AllocError>,
    default: &'b Graph,
) -> Result<(), AllocError>
    ensures { (y : Reply) → IfOk found (λ found. fetched found ≡ y)
        → OnOk result (answers_noted answers.new
        ≡ noted key.now (value_or_default default.now y) (answers_noted answers.old)) }
{
    match found? {
        Some(value) => answers.note(key, Answer::Found(value)),
        None => answers.note(key, Answer::Default(default)),
    }
}
