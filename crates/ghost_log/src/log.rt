//! The log, its begin and its events.

ghost use Rattle.std.specs.Prelude.{◌≡◌};
ghost use Rattle.std.specs.Borrow.{ftrue};

use std::marker::{Model, PhantomData};

/// A beginning of a log, in the state `begun`. It has no functions.
pub trait Begins<S> {
    ghost begun: { Self → S };
}

/// An event of a log, and the state `after` it. It has no functions.
pub trait Happens<S> {
    ghost after: { Self → S → S };
}

/// The state after the events so far, as contracts see an `S`. It exists only in proofs: it takes
/// no bytes, and no `S` is made for it.
#[derive(Drop)]
pub struct Log<S> {
    marker: PhantomData<S>,
    /// Only `then` changes it.
    pub ghost state: { S },
}

impl<S> Model for Log<S> {
    ghost also_owns = { λ _. ftrue };
}

unsafe impl<S> Send for Log<S> {}

// A log, and an event that happens then.
#[derive(Drop)]
struct After<'a, S, E>(&'a Log<S>, &'a E);

impl<'a, S, E: Happens<S>> Begins<S> for After<'a, S, E> {
    ghost begun = { λ a. E.after a.1.now a.0.now.state };
}

impl<S> Log<S> {
    /// No event has happened.
    pub fn start<B: Begins<S>>(_from: &B) -> Log<S>
        ensures { result.state ≡ B.begun _from.now }
    {
        Log {
            marker: PhantomData,
        }
    }

    /// One more event.
    pub fn then<E: Happens<S>>(&self, event: &E) -> Log<S>
        ensures { result.state ≡ E.after event.now self.now.state }
    {
        Log::start(&After(self, event))
    }
}
