//! A play whose events have empty masks, and the plain cache, with the same requests.

use crate::mark_requests::{Act, request_of};
use crate::marks::{Event, Table};
use apcu_model::{Conf, Reply};
use plain_cache::Plain;
use std::alloc::Global;
use std::process::Abort;
use std::test::Fail;

// Whether two replies are the same.
fn is_same(one: &Reply, other: &Reply) -> bool {
    match (one, other) {
        (Reply::Flag(a), Reply::Flag(b)) => *a == *b,
        (Reply::Found(a), Reply::Found(b)) => a.same(b),
        (Reply::Gave(a), Reply::Gave(b)) => a.same(b),
        (Reply::Info(a), Reply::Info(b)) => a.same(b),
        (Reply::Number(a), Reply::Number(b)) => *a == *b,
        (Reply::Absent, Reply::Absent) => true,
        (Reply::NoNumber, Reply::NoNumber) => true,
        (Reply::Ended, Reply::Ended) => true,
        _ => false,
    }
}

#[derive(Drop)]
pub(crate) struct Both {
    alloc: Global,
    table: Table,
    plain: Plain,
}

impl Both {
    // Caches of this shape, which is a usable one.
    pub(crate) fn new(rt: &impl Abort, alloc: Global, conf: &Conf) -> Result<Both, Fail> {
        assert!(rt; conf.usable());
        Ok(Both {
            alloc,
            table: Table::new(rt, alloc, conf)?,
            plain: Plain::new(alloc, conf),
        })
    }

    // Makes a request under a key at a moment to both. They reply the same.
    pub(crate) fn ask(
        &mut self,
        rt: &impl Abort,
        worker: u32,
        name: u8,
        act: Act,
        t: u64,
    ) -> Result<(), Fail> {
        let request = request_of(rt, self.alloc, name, act)?;
        let event = Event { worker, mask: 0, t };
        let reply = self.table.ask(rt, event, &request)?;
        let wanted = self.plain.ask(&request, t)?;
        assert!(rt; is_same(&reply, &wanted));
        Ok(())
    }
}
