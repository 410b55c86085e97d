//! The cache over words and the plain one, with the same requests.

ghost use Rattle.std.specs.Prelude.{◌≡◌, false};
ghost use Rattle.apcu_model.specs.Sequential.{is_iteration};

use crate::asking::{Act, number_in, request_of};
use crate::info_small::Small;
use apcu_model::{Conf, Reply, Request};
use notation::{ByteOut, write_value};
use php_graph::{Bytes, Graph};
use plain_cache::Plain;
use std::alloc::{AllocError, Global};
use std::process::Abort;
use std::test::Fail;

// The text of the plain cache's reply.
fn told_plainly(plain: &mut Plain, request: &Request, t: u64) -> Result<Option<Graph>, AllocError>
    requires plain { is_iteration request.now ≡ false }
{
    match plain.ask(request, t)? {
        Reply::Info(info) => Ok(Some(info)),
        _ => Ok(None),
    }
}

fn text_of(alloc: Global, told: Option<&Graph>) -> Result<ByteOut, AllocError> {
    let mut out = ByteOut::new(alloc);
    match told {
        Some(told) => write_value(told, 0, &mut out)?,
        None => out.push(b"N;")?,
    }
    Ok(out)
}

#[derive(Drop)]
pub(crate) struct Both {
    alloc: Global,
    small: Small,
    plain: Plain,
}

impl Both {
    // Caches of this shape, which is a usable one.
    pub(crate) fn new(rt: &impl Abort, alloc: Global, conf: &Conf) -> Result<Both, Fail> {
        assert!(rt; conf.usable());
        Ok(Both {
            alloc,
            small: Small::new(alloc, conf)?,
            plain: Plain::new(alloc, conf),
        })
    }

    // Makes the request to both. They reply the same, and count the same.
    pub(crate) fn ask(
        &mut self,
        rt: &impl Abort,
        key: &[u8],
        act: Act,
        t: u64,
    ) -> Result<Option<i64>, Fail> {
        assert!(rt; key.len() < 1 << 20);
        let key = Bytes::of(self.alloc, key)?;
        let request = request_of(rt, self.alloc, key, act)?;
        let answer = self.small.ask(self.alloc, &request, t);
        let reply = self.plain.ask(&request, t)?;
        assert_eq!(rt; answer, number_in(&reply));
        assert_eq!(rt; self.small.counts(), self.plain.counts());
        Ok(answer)
    }

    // Makes the request to both, and returns the text of their reply, which is the same.
    pub(crate) fn tell(
        &mut self,
        rt: &impl Abort,
        request: &Request,
        t: u64,
    ) -> Result<ByteOut, Fail>
        requires plain { is_iteration request.now ≡ false }
    {
        let told = self.small.tell(self.alloc, request, t)?;
        let wanted = told_plainly(&mut self.plain, request, t)?;
        match (&told, &wanted) {
            (Some(a), Some(b)) => assert!(rt; a.same(b)),
            (None, None) => {}
            _ => assert!(rt; false),
        }
        Ok(text_of(self.alloc, told.as_ref())?)
    }
}
