//! Rows in the chain of a slot and among the removed ones, and their words.

use crate::slots::{FILL, Step, plays};
use std::test::Fail;

#[test]
fn writes_the_words_of_an_entry(rt: HostRuntime) -> Result<(), Fail> {
    let steps = [(Step::Sweep, 0), (Step::Put(b'a'), 32)];
    let head = [
        (32, 16),
        (33, 0),
        (34, 1),
        (35, 2),
        (36, 0),
        (42, 1),
        (43, 0),
    ];
    plays(&rt, rt.alloc(), &steps, 1, 0, &head)?;
    let noted = [(37, 1), (38, 1), (39, 1), (40, 0), (41, 0)];
    plays(&rt, rt.alloc(), &steps, 1, 0, &noted)?;
    let rest = [(6, 32), (44, 97), (45, 2), (46, 1)];
    plays(&rt, rt.alloc(), &steps, 1, 0, &rest)
}

#[test]
fn replaces_in_the_middle_of_a_chain(rt: HostRuntime) -> Result<(), Fail> {
    // the slot, and what each entry names; the number of the new one
    let words = [(6, 32), (33, 80), (81, 64), (65, 0), (90, 4)];
    plays(&rt, rt.alloc(), &FILL, 3, 0, &words)
}

#[test]
fn removes_in_another_order(rt: HostRuntime) -> Result<(), Fail> {
    let [a, b, c, d] = FILL;
    let steps = [
        a,
        b,
        c,
        d,
        (Step::Remove(b'a'), 64),
        (Step::Remove(b'!'), 32),
        (Step::Remove(b'!'), 0),
    ];
    // one is left in the chain; the removed ones have their moments
    let words = [
        (6, 80),
        (81, 0),
        (65, 32),
        (33, 0),
        (72, 4),
        (40, 5),
        (88, 0),
    ];
    plays(&rt, rt.alloc(), &steps, 1, 64, &words)
}

#[test]
fn frees_the_removed_ones(rt: HostRuntime) -> Result<(), Fail> {
    let [a, b, c, d] = FILL;
    // their words are free again, but not those of the block that was replaced
    let steps = [
        a,
        b,
        c,
        d,
        (Step::Remove(b'a'), 64),
        (Step::Remove(b'!'), 32),
        (Step::Sweep, 64),
        (Step::Sweep, 32),
        (Step::Sweep, 0),
        (Step::Put(b'b'), 32),
        (Step::Put(b'c'), 64),
    ];
    plays(&rt, rt.alloc(), &steps, 3, 0, &[])
}

#[test]
fn deletes_at_once(rt: HostRuntime) -> Result<(), Fail> {
    let [a, b, c, _] = FILL;
    let steps = [
        a,
        b,
        c,
        (Step::Delete(b'A'), 48),
        (Step::Delete(b'A'), 0),
        (Step::Put(b'A'), 48),
    ];
    plays(
        &rt,
        rt.alloc(),
        &steps,
        3,
        0,
        &[(6, 32), (33, 64), (65, 48), (49, 0)],
    )
}
