//! A gate that holds workers at points of their scripts.

use io_edges::{Gate, Point};
use std::alloc::{AllocError, Global};
use std::sync::{Mutex, Wait};

// How often a worker checks for the others before it gives up.
const TURNS: u32 = 100_000_000;

// A worker that has reached a point.
type Come = (u32, Point);

// What a worker waits for.
#[derive(Clone, Copy)]
pub(crate) enum Hold {
    // One at a point waits until another one has reached a point of its own.
    Until(Come, Come),
    // This many wait for one another at a point of each.
    Meet(u32, Point),
}

impl Hold {
    fn holds(self, come: Come) -> bool {
        match self {
            Hold::Until(held, _) => held == come,
            Hold::Meet(_, at) => at == come.1,
        }
    }

    fn waits_for(self, come: Come) -> bool {
        match self {
            Hold::Until(_, other) => other == come,
            Hold::Meet(_, at) => at == come.1,
        }
    }

    // How many have to reach it.
    fn count(self) -> u32 {
        match self {
            Hold::Until(_, _) => 1,
            Hold::Meet(workers, _) => workers,
        }
    }
}

// Holds workers, and notes which of them reached the points for which others wait. One that waits
// for too long continues, and that is noted too.
pub(crate) struct Holding<'a, R: Wait> {
    rt: &'a R,
    holds: &'a [Hold],
    come: Mutex<Vec<Come>>,
    given_up: Mutex<bool>,
}

impl<R: Wait> Drop for Holding<'_, R> {
    fn drop(self) {
        let Holding {
            rt: _,
            holds: _,
            come: _,
            given_up: _,
        } = self;
    }
}

impl<'a, R: Wait> Holding<'a, R> {
    pub(crate) fn new(
        rt: &'a R,
        alloc: Global,
        holds: &'a [Hold],
    ) -> Result<Holding<'a, R>, AllocError> {
        Ok(Holding {
            rt,
            holds,
            come: Mutex::new(Vec::with_capacity(alloc, 64)?),
            given_up: Mutex::new(false),
        })
    }

    // Whether a worker has given up.
    pub(crate) fn has_given_up(&self) -> bool {
        *self.given_up.lock(self.rt)
    }

    // How often a worker has reached a point for which another one waits.
    pub(crate) fn comings(&self) -> usize {
        self.come.lock(self.rt).len()
    }

    // Whether a worker waits for this.
    fn is_awaited(&self, come: Come) -> bool {
        self.holds.iter().any(|hold| hold.waits_for(come))
    }

    // Whether all have reached the points that the hold waits for.
    fn is_let_go(&self, hold: Hold) -> bool {
        let mut count = 0u32;
        for come in self.come.lock(self.rt).as_slice() {
            if hold.waits_for(*come) {
                count = count.saturating_add(1);
            }
        }
        count >= hold.count()
    }

    fn wait(&self, hold: Hold) {
        for _turn in 0..TURNS {
            if self.is_let_go(hold) {
                return;
            }
        }
        *self.given_up.lock(self.rt) = true;
    }
}

fn note(all: &mut Vec<Come>, come: Come) {
    if all.len() < all.capacity() {
        all.push_reserved(come);
    }
}

impl<R: Wait> Gate for Holding<'_, R> {
    fn reached(&self, worker: u32, point: Point) {
        let come = (worker, point);
        if self.is_awaited(come) {
            note(&mut self.come.lock(self.rt), come);
        }
        for hold in self.holds {
            if hold.holds(come) {
                self.wait(*hold);
            }
        }
    }
}
