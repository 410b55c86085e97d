//! Points of a worker's script at which a test may hold it.

/// A point that a worker reaches. The number is that of the call in its script, from 0.
#[derive(Clone, Copy, Debug, PartialEq, Eq)]
pub enum Point {
    /// The call is about to be made.
    Before(u32),
    /// A block is pinned, and the copy of its value has not begun.
    Pinned(u32),
    /// A chunk of a walk was gathered.
    Chunk(u32),
    /// The call has its reply.
    After(u32),
}

/// Called at each point that a worker reaches. It has no part in any result: a test uses it to hold
/// one worker at a point until another has reached its own. A call may take any time.
pub trait Gate {
    /// Is called by a worker at each of its points, and holds it until it returns.
    fn reached(&self, worker: u32, point: Point);
}

/// A gate that holds no worker.
#[derive(Clone, Copy, Debug, PartialEq, Eq)]
pub struct NoGate;

impl Gate for NoGate {
    fn reached(&self, _worker: u32, _point: Point) {}
}
