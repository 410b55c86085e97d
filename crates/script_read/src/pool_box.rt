//! A call on a pool, in a box.

ghost use Rattle.std.specs.Prelude.{◌≡◌, IfOk};

use simple_pool::PoolCall;
use std::alloc::{AllocError, Global};
use std::marker::Model;

/// A call on a pool, in a box. Contracts see the call.
#[derive(Drop)]
pub struct PoolBox {
    call: Box<PoolCall>,
}

impl Model for PoolBox {
    ghost use Rattle.simple_pool.specs.declared.call.PoolCall.{PoolCall};

    ghost Value = { PoolCall };

    ghost view = { λ b. b.call.value };
}

impl PoolBox {
    // A box of this call.
    pub(crate) fn new(alloc: Global, call: PoolCall) -> Result<PoolBox, AllocError>
        ensures { IfOk result (λ made. made ≡ call) }
    {
        let call = Box::new(alloc, call)?;
        Ok(PoolBox { call })
    }

    /// The call.
    pub fn call(&self) -> &PoolCall
        ensures { result.now ≡ self.now }
    {
        &self.call
    }
}
