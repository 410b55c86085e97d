//! The shapes that a cache can have.

use apcu_model::{Conf, MOST_SLOTS, MOST_USABLE_WORDS, MOST_WORDS};

// The numbers of words, slots and segments, and whether the shape is good, and usable.
const SHAPES: [([u32; 3], bool, bool); 12] = [
    ([32, 2, 1], true, true),
    ([30, 2, 1], false, false),
    ([32, 16, 1], true, true),
    ([32, 18, 1], false, false),
    ([MOST_WORDS, MOST_SLOTS, 1], true, true),
    ([MOST_WORDS, MOST_SLOTS + 2, 1], false, false),
    ([MOST_WORDS + 2, 2, 1], false, true),
    ([MOST_USABLE_WORDS, MOST_SLOTS, 1], false, true),
    ([MOST_USABLE_WORDS, 2, 64], false, true),
    ([MOST_USABLE_WORDS + 2, 2, 1], false, false),
    ([MOST_USABLE_WORDS, 2, 65], false, false),
    ([MOST_WORDS + 1, 2, 1], false, false),
];

#[test]
fn shapes_are_good_or_usable(rt: HostRuntime) {
    for ([words, slots, segments], good, usable) in SHAPES {
        let conf = Conf {
            words,
            slots,
            segments,
            ..Conf::usual()
        };
        assert_eq!(rt; (conf.good(), conf.usable()), (good, usable));
    }
}
