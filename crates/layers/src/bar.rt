// A bar closes a set of tests of the book below: it shows the blank there, and refuses readings there.

ghost use Rattle.std.specs.Prelude.{◌≡◌, bit_or};
ghost use Rattle.layers.specs.Bars.{BarTold, TwoAsOne, admitted, bar_fault, bar_means, barred};
ghost use Rattle.refusals.specs.Faults.{passed};
ghost use Rattle.layers.specs.Soundness.{bar_sound};

use crate::faults::BarFault;
use books::book::Book;
use books::faults::BookFault;
use books::shown::Shown;
use books::table::{check_amend, check_enter, check_withdraw};
use readings::kinds::Reading;
use sets::{EMPTY, has, lowest_above};

#[cfg(test)]
mod tests;

// The book below, and the set of tests that are closed besides those closed below.
#[derive(Drop)]
pub struct Bar<B> {
    below: B,
    tests: u32,
}

// Can a bar of these tests lie over this book? The fault names the lowest test outside its width.
#[tactic(auto, using(crate::proofs::Lowest::bar_told))]
pub fn check<B: Shown>(below: &B, tests: u32) -> Result<(), BarFault>
    ensures answer { result ≡ passed (bar_fault (B.Shown.means below.now).width tests) }
    ensures told { BarTold (B.Shown.means below.now).width tests (passed (bar_fault (B.Shown.means below.now).width tests)) }
{
    match lowest_above(tests, below.width()) {
        Some(test) => Err(BarFault::Outside(test)),
        None => Ok(()),
    }
}

// Is the test one of the set, and within the width?
#[tactic(auto, using(crate::proofs::Lowest::barred_is))]
fn bars(width: u32, tests: u32, test: u32) -> bool
    ensures { result ≡ barred width tests test }
{
    test <= width && has(tests, test)
}

impl<B: Shown> Bar<B> {
    // A bar of these tests; of what the check refuses, a bar without effect.
    pub fn new(below: B, tests: u32) -> Bar<B>
        ensures { result ≡ record { below = below; tests = admitted (B.Shown.means below).width tests } }
    {
        let tests = if check(&below, tests).is_ok() {
            tests
        } else {
            EMPTY
        };
        Bar { below, tests }
    }
}

// Two bars as one, of both sets: it means the same.
#[tactic(auto, using(crate::proofs::Twice::two_bars))]
pub fn one_bar<B: Shown>(two: Bar<Bar<B>>) -> Bar<B>
    ensures bar { result ≡ record { below = two.below.below; tests = bit_or two.below.tests two.tests } }
    ensures same { TwoAsOne B.Reading.Reading.kind two.below.tests two.tests result.tests (B.Shown.means result.below) }
{
    let Bar {
        below: Bar {
            below,
            tests: lower,
        },
        tests: upper,
    } = two;
    Bar {
        below,
        tests: lower | upper,
    }
}

// Bar and assembly each pass on what they leave as it is: a shared form needs a trait with as many questions, and a law for each.
impl<B: Shown> Shown for Bar<B> {
    type Reading = B::Reading;

    ghost means = { λ b. bar_means B.Reading.Reading.kind b.tests (B.Shown.means b.below) };

    ghost sound = { λ b. bar_sound _ _ _ (B.Shown.sound b.below) };

    fn width(&self) -> u32 {
        self.below.width()
    }

    fn capacity(&self) -> u32 {
        self.below.capacity()
    }

    #[tactic(auto, using(crate::proofs::Asked::held_told))]
    fn held(&self) -> u32 {
        self.below.held()
    }

    fn closed_test(&self, test: u32) -> bool {
        bars(self.below.width(), self.tests, test) || self.below.closed_test(test)
    }

    fn closed_part(&self, part: u8) -> bool {
        self.below.closed_part(part)
    }

    #[tactic(auto, using(crate::proofs::Asked::next_told))]
    fn next_tag(&self, above: u16) -> Option<u16> {
        self.below.next_tag(above)
    }

    #[tactic(auto, using(crate::proofs::Asked::bar_part))]
    fn part(&self, tag: u16) -> Option<u8> {
        self.below.part(tag)
    }

    #[tactic(auto, using(crate::proofs::Asked::bar_open, crate::proofs::Asked::bar_shut))]
    fn reading(&self, tag: u16, test: u32) -> Option<B::Reading> {
        let shown = self.below.reading(tag, test);
        if bars(self.below.width(), self.tests, test) {
            shown.map(|_| B::Reading::blank())
        } else {
            shown
        }
    }
}

// Bar and assembly each have these two lines to a change: a shared form would owe for each layer what it shows and why that is kept.
impl<B: Book> Book for Bar<B> {
    ghost rewrites = { λ b c d. B.Book.rewrites b.below c d.below × (d.tests ≡ b.tests) };

    fn enter(&mut self, tag: u16, part: u8, readings: &[B::Reading]) -> Result<(), BookFault> {
        check_enter(self, tag, part, readings)?;
        self.below.enter(tag, part, readings)
    }

    fn withdraw(&mut self, tag: u16) -> Result<(), BookFault> {
        check_withdraw(self, tag)?;
        self.below.withdraw(tag)
    }

    fn amend(&mut self, tag: u16, test: u32, reading: B::Reading) -> Result<(), BookFault> {
        check_amend(self, tag, test, reading)?;
        self.below.amend(tag, test, reading)
    }
}
