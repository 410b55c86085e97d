//! Pools in the manner of PSR-16: several caches within one. A pool keeps its key `k` under the
//! cache's key `{name}k`.
#![tactic(auto)]

mod call;
mod laws;
mod names;
mod requests;

pub use call::{PoolAsk, PoolCall};
pub use laws::keys_tell_pools_apart;
pub use names::{good_key, good_name, pool_key, pool_pattern};
pub use requests::{POOL_STEP, request};
