// The questions of a slot book: what it means is read off its slots and cells.

ghost use Rattle.std.specs.Prelude.{◌≡◌, ◌<◌, length, IfSome};
ghost use Rattle.slot_book.specs.Found.{slot_of};
ghost use Rattle.slot_book.specs.Meant.{meant};
ghost use Rattle.slot_book.specs.Soundness.{book_sound};

use crate::memory::SlotBook;
use crate::slots::lowest_tag;
use books::shown::Shown;
use readings::kinds::Reading;

impl<R: Reading> Shown for SlotBook<'_, R> {
    type Reading = R;

    ghost means = { λ b. meant b };

    ghost sound = { λ b. book_sound b.slots.now b.cells.now b.width b.valid R.Reading.kind };

    fn width(&self) -> u32 {
        self.width
    }

    #[tactic(auto, using(crate::proofs::Asked::book_few))]
    fn capacity(&self) -> u32 {
        self.slots.len() as u32
    }

    #[tactic(auto, using(crate::proofs::Asked::book_few, crate::proofs::Asked::book_held), unfolding(crate::specs::Found::used))]
    fn held(&self) -> u32 {
        self.slots.iter().filter(|slot| slot.tag != 0).count() as u32
    }

    // Nothing is closed.
    fn closed_test(&self, _test: u32) -> bool {
        false
    }

    fn closed_part(&self, _part: u8) -> bool {
        false
    }

    #[tactic(auto, using(crate::proofs::Asked::book_next))]
    fn next_tag(&self, above: u16) -> Option<u16> {
        lowest_tag(self.slots, above)
    }

    #[tactic(auto, using(crate::proofs::Asked::book_find, crate::proofs::Asked::book_zero))]
    fn part(&self, tag: u16) -> Option<u8> {
        if tag == 0 {
            return None;
        }
        let k = self.slot_of(tag)?;
        Some(self.slots[k].part)
    }

    #[tactic(auto, using(crate::proofs::Asked::book_find, crate::proofs::Asked::book_zero, crate::proofs::Asked::reading_outside, crate::proofs::Asked::book_inside, crate::proofs::Asked::book_small, crate::proofs::Asked::cell_read))]
    fn reading(&self, tag: u16, test: u32) -> Option<R> {
        // by two comparisons: with `contains` the bound of the cell's offset did not close
        if tag == 0 || test < 1 || test > self.width {
            return None;
        }
        let k = self.slot_of(tag)?;
        Some(self.cells[k * self.width as usize + (test - 1) as usize])
    }
}

impl<R: Reading> SlotBook<'_, R> {
    // The first slot with this tag; at tag 0 the first empty one.
    #[tactic(auto, unfolding(crate::specs::Found::slot_of))]
    pub(crate) fn slot_of(&self, tag: u16) -> Option<usize>
        ensures answer { result ≡ slot_of tag self.now.slots.now }
        ensures inside { IfSome result (λ k. k < length self.now.slots.now) }
    {
        self.slots.iter().position(|slot| slot.tag == tag)
    }
}
