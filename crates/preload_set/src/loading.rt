//! The script that stores a bundle.

ghost use Rattle.std.specs.Prelude.{◌≡◌, false, IfOk};
ghost use Rattle.script_read.specs.declared.call.Call.TheVariants.{StoreOne};
ghost use Rattle.preload_set.specs.Loader.{loader_of};

use crate::bundle::Bundle;
use php_graph::{Bytes, Graph};
use script_read::{Call, Script, Step};
use std::alloc::{AllocError, Global};

// The call that stores a value without time limit, replacing what the key had.
fn store(alloc: Global, key: &Bytes, value: &Graph) -> Result<Call, AllocError>
    ensures { IfOk result (λ call. call ≡ StoreOne key.now value.now 0 false) }
{
    Ok(Call::StoreOne {
        key: Bytes::of(alloc, key.as_slice())?,
        value: value.try_copy(alloc)?,
        ttl: 0,
        exclusive: false,
    })
}

/// The script that stores a bundle: a step for each record in turn, which stores its value without
/// time limit, replacing what the key had before. All moments are 0.
pub fn loader(alloc: Global, bundle: &Bundle) -> Result<Script, AllocError>
    ensures { IfOk result (λ script. script ≡ loader_of bundle.now) }
{
    let mut script = Script::new(alloc);
    for i in 0..bundle.records.len() {
        let (key, value) = bundle.records.at(i);
        let call = store(alloc, key, value)?;
        script.push(Step {
            t: 0,
            start: 0,
            call,
        })?;
    }
    Ok(script)
}
