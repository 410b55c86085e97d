//! A gate that notes its calls.

use io_edges::{Gate, Point};
use std::alloc::{AllocError, Global};
use std::sync::{Barrier, Mutex, Wait};

// Notes the worker of each point, as long as there is room. Worker 1 makes its first two calls
// while worker 0 has a block pinned: each waits for the other before the first and after the
// second.
#[derive(Drop)]
pub(crate) struct Noting<'a, R: Wait> {
    rt: &'a R,
    points: Mutex<Vec<(u32, Point)>>,
    both: Barrier,
}

impl<'a, R: Wait> Noting<'a, R> {
    // A gate that notes this many points.
    pub(crate) fn new(rt: &'a R, alloc: Global, room: usize) -> Result<Noting<'a, R>, AllocError> {
        Ok(Noting {
            rt,
            points: Mutex::new(Vec::with_capacity(alloc, room)?),
            both: Barrier::new(2),
        })
    }

    // What was noted.
    pub(crate) fn into_points(self) -> Vec<(u32, Point)> {
        let Noting {
            rt: _,
            points,
            both: _,
        } = self;
        points.into_inner()
    }
}

impl<R: Wait> Gate for Noting<'_, R> {
    fn reached(&self, worker: u32, point: Point) {
        note(&mut self.points.lock(self.rt), worker, point);
        match (worker, point) {
            (0, Point::Pinned(_)) => {
                self.both.wait(self.rt);
                self.both.wait(self.rt);
            }
            (1, Point::Before(0)) | (1, Point::After(1)) => {
                self.both.wait(self.rt);
            }
            _ => {}
        }
    }
}

fn note(points: &mut Vec<(u32, Point)>, worker: u32, point: Point) {
    if points.len() < points.capacity() {
        points.push_reserved((worker, point));
    }
}
