// The questions: what every book tells of what it means. A question changes nothing.

ghost use Rattle.books.specs.Meanings.{Meaning, Sound};
ghost use Rattle.books.specs.Questions.{next_tag, part_of, reading_of};
ghost use Rattle.std.specs.Prelude.{◌≡◌, length};

use readings::kinds::Reading;

pub trait Shown {
    type Reading: Reading;

    ghost means: { Self → Meaning Self.Reading };

    fn width(&self) -> u32
        ensures { result ≡ (means self.now).width };

    fn capacity(&self) -> u32
        ensures { result ≡ (means self.now).capacity };

    // How many records are held.
    fn held(&self) -> u32
        ensures { result ≡ length (means self.now).held };

    fn closed_test(&self, test: u32) -> bool
        ensures { result ≡ (means self.now).closed_test test };

    fn closed_part(&self, part: u8) -> bool
        ensures { result ≡ (means self.now).closed_part part };

    // The smallest held tag above a number, where there is one.
    fn next_tag(&self, above: u16) -> Option<u16>
        ensures { result ≡ next_tag above (means self.now).held };

    // The part of a tag, where it is held.
    fn part(&self, tag: u16) -> Option<u8>
        ensures { result ≡ part_of (means self.now) tag };

    // The reading of a tag at a test, where the tag is held and the test is within the width.
    fn reading(&self, tag: u16, test: u32) -> Option<Self::Reading>
        ensures { result ≡ reading_of (means self.now) tag test };

    ghost sound: { (b : Self) → Sound Self.Reading.Reading.kind (means b) };
}
