//! The few gaps that a call tries before it uses the index.

ghost use Rattle.std.specs.Prelude.{◌≡◌, ◌%◌, ◌≤◌, IfNone, IfSome, nat_le};
ghost use Rattle.std.specs.List.{position};
ghost use Rattle.seg_words.specs.Kept.{Kept};
ghost use Rattle.sma_blocks.specs.Fits.{IsFit};
ghost use Rattle.sma_blocks.specs.Ready.{IsReady};

use super::Sma;
use crate::stores::link_of;
use seg_words::WordsIn;

// How many gaps of the chain are tried before the index is used.
const NEAR: usize = 3;

// A gap that is large enough: it begins at the even place of the number `index`.
#[derive(Clone, Copy)]
pub struct Fit {
    pub index: usize,
    pub size: u32,
    // The number of the gap before, if there is one.
    pub before: Option<usize>,
}

impl Sma {
    // The first gap of `n` words or more, if there is one. Most blocks fit into one of the first
    // gaps, which a few loads find; the index takes a step for each of its levels.
    pub(super) fn fit<S: WordsIn>(&self, seg: &mut S, n: u32) -> Option<Fit>
        requires size { (n % 2 ≡ 0) × (2 ≤ n) }
        requires ready { IsReady self.now (S.words seg.old) (S.aside seg.old) }
        ensures none { IfNone result (position (λ value. nat_le n value) self.now.sizes ≡ None) }
        ensures fit { IfSome result (λ fit. IsFit self.now.sizes n fit) }
        ensures kept { Kept S.WordsIn seg.old seg.new }
    {
        if let Some(fit) = self.near_fit(seg, n) {
            return Some(fit);
        }
        self.far_fit(n)
    }

    // That gap, if it is one of the first of the chain.
    fn near_fit<S: WordsIn>(&self, seg: &mut S, n: u32) -> Option<Fit>
        requires size { 2 ≤ n }
        requires ready { IsReady self.now (S.words seg.old) (S.aside seg.old) }
        ensures fit { IfSome result (λ fit. IsFit self.now.sizes n fit) }
        ensures kept { Kept S.WordsIn seg.old seg.new }
    {
        if self.free < n {
            return None;
        }
        let mut before = None;
        'gaps: for _ in 0..NEAR {
            let index = link_of(seg, self.head, before) as usize / 2;
            let size = self.sizes.get(index);
            if size >= n {
                return Some(Fit {
                    index,
                    size,
                    before,
                });
            }
            if size == 0 {
                return None;
            }
            before = Some(index);
        }
        None
    }

    // That gap, found by the index.
    fn far_fit(&self, n: u32) -> Option<Fit>
        requires { (n % 2 ≡ 0) × (2 ≤ n) }
        ensures none { IfNone result (position (λ value. nat_le n value) self.now.sizes ≡ None) }
        ensures fit { IfSome result (λ fit. IsFit self.now.sizes n fit) }
    {
        let Some(index) = self.sizes.first_at_least(n) else {
            return None;
        };
        let size = self.sizes.get(index);
        let before = self.sizes.last_nonzero_before(index);
        Some(Fit {
            index,
            size,
            before,
        })
    }
}
