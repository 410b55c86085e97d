//! The replies to a call, in their order.

ghost use Rattle.std.specs.Prelude.{◌≡◌, ◌==◌, ◌++◌, [], ◌∷◌, length, is_ok, if◌then◌else◌};

use apcu_model::Reply;
use std::alloc::{AllocError, Global};
use std::marker::Model;

/// The replies to a call, in their order. Contracts see the list.
#[derive(Drop)]
pub struct Replies {
    replies: Vec<Reply>,
}

impl Model for Replies {
    ghost use Rattle.std.specs.Prelude.{List};
    ghost use Rattle.apcu_model.specs.declared.request.Reply.{Reply};

    ghost Value = { List Reply };

    ghost view = { λ replies. replies.replies.items };
}

impl Replies {
    /// No replies.
    pub fn new(alloc: Global) -> Replies
        ensures { result ≡ [] }
    {
        Replies {
            replies: Vec::new(alloc),
        }
    }

    /// Adds a reply at the end. Without memory the replies are unchanged, and the new one is
    /// dropped.
    pub fn push(&mut self, reply: Reply) -> Result<(), AllocError>
        ensures { self.new ≡ (if is_ok result then self.old ++ reply ∷ [] else self.old) }
    {
        self.replies.push(reply)?;
        Ok(())
    }

    /// The number of replies.
    pub fn len(&self) -> usize
        ensures { result ≡ length self.now }
    {
        self.replies.len()
    }

    /// Whether there are none.
    pub fn is_empty(&self) -> bool
        ensures { result ≡ (length self.now == 0) }
    {
        self.replies.is_empty()
    }

    /// The replies.
    pub fn as_slice(&self) -> &[Reply]
        ensures { result.now ≡ self.now }
    {
        self.replies.as_slice()
    }

    /// Drops all replies.
    pub fn clear(&mut self)
        ensures { self.new ≡ [] }
    {
        self.replies.clear();
    }

    // The allocator of the list.
    pub(crate) fn alloc(&self) -> Global {
        *self.replies.allocator()
    }
}
