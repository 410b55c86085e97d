//! Bundles: keys and values that a loader stores in a cache before any worker begins.
#![tactic(auto)]

mod bundle;
mod front;
mod laws;
mod loading;
mod reading;
mod records;

pub use bundle::Bundle;
pub use front::read_front;
pub use laws::{bundles_load, loaders_only_store, readings_are_bundles};
pub use loading::loader;
pub use reading::read_bundle;
