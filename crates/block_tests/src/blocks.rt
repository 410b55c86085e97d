//! Blocks that are taken, freed and kept, and the gaps that are left.

use crate::steps::{Shape, Step, play_over};
use sma_blocks::{block_laws, call_laws, list_laws};
use std::alloc::{AllocError, Global};
use std::test::Fail;

// Steps over this many words of one segment, from the word 32 on.
fn play_new(alloc: Global, len: u32, steps: &[Step]) -> Result<usize, AllocError> {
    let shape = Shape {
        len,
        from: 32,
        piece: 0,
    };
    play_over(alloc, shape, steps)
}

#[test]
fn takes_and_gives(rt: HostRuntime) -> Result<(), Fail> {
    const STEPS: &[Step] = &[
        Step::FirstGap(32),
        Step::Word(32, 33),
        Step::Word(33, 0),
        Step::Take(8, Some(32)),
        Step::Take(8, Some(40)),
        Step::Take(16, Some(48)),
        Step::Take(2, None),
        Step::FirstGap(0),
        Step::GapFrom(0, None),
        Step::Give(1),
        Step::Give(0),
        Step::Take(18, None),
        Step::Free(16),
        Step::Largest(16),
        Step::GapFrom(0, Some((32, 16))),
        Step::GapFrom(34, None),
        Step::FirstGap(32),
        Step::Word(32, 17),
        Step::Word(33, 0),
        Step::Take(16, Some(32)),
        Step::Free(0),
        Step::Largest(0),
    ];
    assert_eq!(rt; play_new(rt.alloc(), 64, STEPS)?, 22);
    Ok(())
}

#[test]
fn links_gaps(rt: HostRuntime) -> Result<(), Fail> {
    const STEPS: &[Step] = &[
        Step::Take(8, Some(32)),
        Step::Take(8, Some(40)),
        Step::Take(8, Some(48)),
        Step::Take(8, Some(56)),
        Step::Give(2),
        Step::Give(0),
        Step::FirstGap(32),
        Step::Word(32, 9),
        Step::Word(33, 48),
        Step::Word(48, 9),
        Step::Word(49, 0),
        Step::GapFrom(33, Some((48, 8))),
        Step::GapFrom(48, Some((48, 8))),
        Step::GapFrom(49, None),
        Step::GapFrom(4294967295, None),
        Step::Take(2, Some(32)),
        Step::FirstGap(34),
        Step::Word(34, 7),
        Step::Word(35, 48),
        Step::Take(8, Some(48)),
        Step::Word(35, 0),
    ];
    assert_eq!(rt; play_new(rt.alloc(), 64, STEPS)?, 21);
    Ok(())
}

#[test]
fn merges_in_either_order(rt: HostRuntime) -> Result<(), Fail> {
    const LATE: &[Step] = &[
        Step::Take(160, Some(32)),
        Step::Take(160, Some(192)),
        Step::Take(160, Some(352)),
        Step::Give(0),
        Step::Give(0),
        Step::Take(320, Some(32)),
    ];
    const EARLY: &[Step] = &[
        Step::Take(160, Some(32)),
        Step::Take(160, Some(192)),
        Step::Take(160, Some(352)),
        Step::Give(1),
        Step::Give(0),
        Step::Take(320, Some(32)),
    ];
    assert_eq!(rt; play_new(rt.alloc(), 512, LATE)?, 6);
    assert_eq!(rt; play_new(rt.alloc(), 512, EARLY)?, 6);
    Ok(())
}

#[test]
fn keeps_blocks(rt: HostRuntime) -> Result<(), Fail> {
    const FULL: &[Step] = &[
        Step::Take(8, Some(32)),
        Step::Take(8, Some(40)),
        Step::Take(8, Some(48)),
        Step::Take(8, Some(56)),
    ];
    const SOME: &[Step] = &[
        Step::Keep(0b0110),
        Step::FirstGap(32),
        Step::Word(32, 9),
        Step::Word(33, 56),
        Step::Word(40, 8),
        Step::Word(56, 9),
        Step::Word(57, 0),
        Step::Free(16),
        Step::Largest(8),
        Step::Take(10, None),
        Step::Take(8, Some(32)),
        Step::Take(8, Some(56)),
        Step::Take(2, None),
    ];
    const NONE: &[Step] = &[
        Step::Keep(0),
        Step::FirstGap(32),
        Step::Word(32, 33),
        Step::Word(33, 0),
        Step::Free(32),
        Step::Largest(32),
        Step::GapFrom(33, None),
        Step::Take(32, Some(32)),
    ];
    const ALL: &[Step] = &[
        Step::Keep(0b1111),
        Step::FirstGap(0),
        Step::Free(0),
        Step::Largest(0),
        Step::Take(2, None),
        Step::Give(0),
        Step::Take(8, Some(32)),
    ];
    const GAPS_BEFORE: &[Step] = &[
        Step::Give(1),
        Step::Keep(0b010),
        Step::Word(32, 17),
        Step::Word(33, 56),
        Step::Word(57, 0),
        Step::Largest(16),
        Step::GapFrom(33, Some((56, 8))),
        Step::Take(16, Some(32)),
        Step::Take(8, Some(56)),
    ];
    for (i, then) in [SOME, NONE, ALL, GAPS_BEFORE].iter().enumerate() {
        let steps = joined(rt.alloc(), FULL, then)?;
        assert_eq!(rt;
            play_new(rt.alloc(), 64, steps.as_slice())?,
            steps.len(),
            "row {i}"
        );
    }
    Ok(())
}

// The first steps and then the others.
fn joined(alloc: Global, first: &[Step], then: &[Step]) -> Result<Vec<Step>, AllocError> {
    let mut steps = Vec::new(alloc);
    for step in first {
        steps.push(*step)?;
    }
    for step in then {
        steps.push(*step)?;
    }
    Ok(steps)
}

// This many calls, drawn by a linear congruential generator.
fn draw(alloc: Global, count: u32) -> Result<Vec<Step>, AllocError> {
    let mut steps = Vec::new(alloc);
    let mut state: u64 = 1;
    for _ in 0..count {
        state = state
            .wrapping_mul(6364136223846793005)
            .wrapping_add(1442695040888963407);
        if state >> 57 == 0 {
            steps.push(Step::Keep(state >> 8))?;
        } else if state >> 63 == 0 {
            steps.push(Step::TakeLeast((state / 65536 % 20) as u32 * 2 + 2))?;
        } else {
            steps.push(Step::Give((state / 65536 % 32) as u32))?;
        }
    }
    Ok(steps)
}

#[test]
fn agrees_with_the_plain_list(rt: HostRuntime) -> Result<(), Fail> {
    let steps = draw(rt.alloc(), 10_000)?;
    assert_eq!(rt; play_new(rt.alloc(), 512, &steps)?, 10_000);
    Ok(())
}

// Two segments of 34 words. The border is in the middle of four words that have one number of the
// index.
const TWO: Shape = Shape {
    len: 68,
    from: 2,
    piece: 34,
};

#[test]
fn crosses_no_border(rt: HostRuntime) -> Result<(), Fail> {
    const APART: &[Step] = &[
        Step::FirstGap(2),
        Step::Word(2, 33),
        Step::Word(3, 34),
        Step::Word(34, 35),
        Step::Word(35, 0),
        Step::Free(66),
        Step::Largest(34),
        Step::GapFrom(0, Some((2, 32))),
        Step::GapFrom(3, Some((34, 34))),
        Step::Take(36, None),
        Step::Take(34, Some(34)),
        Step::Take(34, None),
        Step::Take(32, Some(2)),
        Step::Free(0),
        Step::Give(0),
        Step::Word(3, 0),
        Step::Give(0),
        Step::FirstGap(2),
        Step::Word(2, 33),
        Step::Word(3, 34),
        Step::Word(34, 35),
        Step::Word(35, 0),
        Step::Largest(34),
        Step::Take(36, None),
    ];
    const GIVEN_LAST_FIRST: &[Step] = &[
        Step::Take(34, Some(34)),
        Step::Take(32, Some(2)),
        Step::Give(1),
        Step::Give(0),
        Step::Word(2, 33),
        Step::Word(3, 34),
        Step::Word(34, 35),
        Step::Largest(34),
        Step::Take(36, None),
        Step::Take(34, Some(34)),
    ];
    const TWINS: &[Step] = &[
        Step::Take(30, Some(2)),
        Step::FirstGap(32),
        Step::Word(32, 3),
        Step::Word(33, 34),
        Step::Word(34, 35),
        Step::GapFrom(32, Some((32, 2))),
        Step::GapFrom(33, Some((34, 34))),
        Step::Free(36),
        Step::Largest(34),
        Step::Take(4, Some(34)),
        Step::Largest(30),
        Step::Take(2, Some(32)),
        Step::FirstGap(38),
        Step::Give(1),
        Step::FirstGap(32),
        Step::Word(33, 38),
        Step::Give(1),
        Step::Word(33, 34),
        Step::Word(34, 35),
        Step::Largest(34),
        Step::Take(34, Some(34)),
        Step::Take(2, Some(32)),
        Step::Take(2, None),
    ];
    const IN_ALL_AND_IN_NONE: &[Step] = &[
        Step::Take(14, Some(2)),
        Step::Take(18, Some(16)),
        Step::Take(18, Some(34)),
        Step::Take(16, Some(52)),
        Step::Give(1),
        Step::Give(1),
        Step::Free(36),
        Step::Largest(18),
        Step::Word(16, 19),
        Step::Word(17, 34),
        Step::Word(34, 19),
        Step::Take(20, None),
        Step::Take(18, Some(16)),
        Step::Take(18, Some(34)),
    ];
    for (i, steps) in [APART, GIVEN_LAST_FIRST, TWINS, IN_ALL_AND_IN_NONE]
        .iter()
        .enumerate()
    {
        assert_eq!(rt; play_over(rt.alloc(), TWO, steps)?, steps.len(), "row {i}");
    }
    Ok(())
}

#[test]
fn keeps_blocks_of_segments(rt: HostRuntime) -> Result<(), Fail> {
    const BESIDE_THE_BORDER: &[Step] = &[
        Step::Take(14, Some(2)),
        Step::Take(18, Some(16)),
        Step::Take(18, Some(34)),
        Step::Take(16, Some(52)),
        Step::Keep(0b1001),
        Step::FirstGap(16),
        Step::Word(16, 19),
        Step::Word(17, 34),
        Step::Word(34, 19),
        Step::Word(35, 0),
        Step::Free(36),
        Step::Largest(18),
        Step::Take(20, None),
        Step::Keep(0),
        Step::FirstGap(2),
        Step::Word(2, 33),
        Step::Word(3, 34),
        Step::Word(34, 35),
        Step::Free(66),
        Step::Largest(34),
        Step::Take(34, Some(34)),
        Step::Keep(1),
        Step::Word(2, 33),
        Step::Word(3, 0),
        Step::Free(32),
        Step::Take(32, Some(2)),
    ];
    const TWINS: &[Step] = &[
        Step::Take(30, Some(2)),
        Step::Take(34, Some(34)),
        Step::Keep(0b01),
        Step::FirstGap(32),
        Step::Word(33, 34),
        Step::Largest(34),
        Step::Take(34, Some(34)),
        Step::Take(2, Some(32)),
    ];
    for (i, steps) in [BESIDE_THE_BORDER, TWINS].iter().enumerate() {
        assert_eq!(rt; play_over(rt.alloc(), TWO, steps)?, steps.len(), "row {i}");
    }
    Ok(())
}

// Random calls, over segments of 4 j + 2 words, of 4 j words, and of as many as can be.
#[test]
fn agrees_with_the_plain_list_in_segments(rt: HostRuntime) -> Result<(), Fail> {
    const SHAPES: [(u32, u32, u32); 6] = [
        (68, 2, 34),
        (132, 2, 66),
        (1032, 32, 258),
        (512, 32, 256),
        (2176, 2, 34),
        (1152, 2, 18),
    ];
    let steps = draw(rt.alloc(), 3_000)?;
    for (len, from, piece) in SHAPES {
        let shape = Shape { len, from, piece };
        let count = play_over(rt.alloc(), shape, &steps)?;
        assert_eq!(rt; count, 3_000, "segments of {piece}");
    }
    Ok(())
}

#[test]
fn states_its_laws() {
    block_laws();
    call_laws();
    list_laws();
}

#[test]
fn ten_small_blocks_fit_where_a_large_one_was(rt: HostRuntime) -> Result<(), Fail> {
    const STEPS: &[Step] = &[
        Step::Take(160, Some(32)),
        Step::Take(160, Some(192)),
        Step::Take(160, Some(352)),
        Step::Give(0),
        Step::Take(16, Some(32)),
        Step::Take(16, Some(48)),
        Step::Take(16, Some(64)),
        Step::Take(16, Some(80)),
        Step::Take(16, Some(96)),
        Step::Take(16, Some(112)),
        Step::Take(16, Some(128)),
        Step::Take(16, Some(144)),
        Step::Take(16, Some(160)),
        Step::Take(16, Some(176)),
        Step::Take(16, None),
    ];
    let shape = Shape {
        len: 512,
        from: 32,
        piece: 512,
    };
    assert_eq!(rt; play_over(rt.alloc(), shape, STEPS)?, 15);
    Ok(())
}
