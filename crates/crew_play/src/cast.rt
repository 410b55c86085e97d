//! What all workers of a run are played with.

use apcu_model::{Clock, Conf};
use script_read::Scripts;
use std::alloc::Global;

// The scripts of all workers, the shape of their cache, and what else their calls are played with.
#[derive(Drop)]
pub(crate) struct Cast<'a, M, G> {
    pub(crate) alloc: Global,
    pub(crate) conf: &'a Conf,
    pub(crate) scripts: &'a Scripts,
    pub(crate) maker: &'a M,
    pub(crate) gate: &'a G,
    pub(crate) clock: Clock,
}
