//! The image of a pinned block's value, as words.

ghost use Rattle.std.specs.Prelude.{◌≡◌, ◌<◌, ◌^◌, length};

use crate::copying::Copying;
use crate::table::PinTable;
use seg_words::WordsIn;

/// What an image keeps besides its words. No value of it is made.
pub struct Lent {
    pub name: u64,
    pub copying: Copying,
}

/// The image of a pinned block's value: its words as they were at the pin, from place 0 on.
pub struct Image<'a> {
    pub table: &'a PinTable,
    pub copying: &'a mut Copying,
    /// The place of its first word, kept here because it would otherwise be read again at each
    /// load.
    pub first: u32,
    ghost same_table: { copying.now.table ≡ table.now },
    ghost same_place: { first ≡ copying.now.copy.first },
    ghost short: { length copying.now.copy.content < 2 ^ 32 },
}

impl Copying {
    /// Lends the words of the image, for a caller that reads values from words.
    pub fn image<'a>(&'a mut self, table: &'a PinTable) -> Image<'a>
        requires { self.old.table ≡ table.now }
        ensures same_reference { result.copying.ghost_name ≡ self.entry.ghost_name }
        ensures same { result.copying.now ≡ self.old }
    {
        let (first, _len) = self.range();
        Image {
            table,
            copying: self,
            first,
        }
    }
}

impl WordsIn for Image<'_> {
    type Rest = Lent;

    ghost use Rattle.seg_words.specs.Windows.{nothing_aside};
    ghost use Rattle.pin_table.specs.ImageRest.{lent};

    ghost words = { λ i. i.copying.now.copy.content };

    ghost aside = { λ _. nothing_aside };

    ghost rest = { lent };

    ghost short = { λ i. i.short };

    fn len(&self) -> u32 {
        self.copying.range().1
    }

    fn load(&mut self, i: u32) -> u64 {
        self.copying
            .word_at(self.table, self.first as usize + i as usize)
    }

    fn load_eight(&mut self, i: u32) -> [u64; 8] {
        self.copying.eight(self.table, self.first, i)
    }
}
