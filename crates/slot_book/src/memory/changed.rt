// The changes of a slot book: looked up in the refusal table first, then written in place.

ghost use Rattle.books.specs.Changes.{amend, enter, withdraw};
ghost use Rattle.slot_book.specs.Rewritten.{Made, Passes, rewritten};

use crate::cells::blank_cells;
use crate::memory::SlotBook;
use crate::slots::{NO_SLOT, Slot};
use books::book::Book;
use books::faults::BookFault;
use books::table::{check_amend, check_enter, check_withdraw};
use readings::kinds::Reading;

impl<R: Reading> Book for SlotBook<'_, R> {
    ghost rewrites = { rewritten R.Reading.kind };

    fn enter(&mut self, tag: u16, part: u8, readings: &[R]) -> Result<(), BookFault> {
        check_enter(self, tag, part, readings)?;
        self.put_in(tag, part, readings);
        Ok(())
    }

    fn withdraw(&mut self, tag: u16) -> Result<(), BookFault> {
        check_withdraw(self, tag)?;
        self.take_out(tag);
        Ok(())
    }

    fn amend(&mut self, tag: u16, test: u32, reading: R) -> Result<(), BookFault> {
        check_amend(self, tag, test, reading)?;
        self.set_reading(tag, test, reading);
        Ok(())
    }
}

// The changes that the table passes.
impl<R: Reading> SlotBook<'_, R> {
    // Into the first empty slot.
    #[tactic(auto, using(crate::proofs::Asked::book_inside, crate::proofs::Asked::book_small, crate::proofs::Writing::valid_cells))]
    fn put_in(&mut self, tag: u16, part: u8, readings: &[R])
        requires { Passes R.Reading.kind self.old (enter tag part readings.now) }
        ensures { Made R.Reading.kind self.old (enter tag part readings.now) self.new }
    {
        let k = self.slot_of(0).unwrap();
        let at = k * self.width as usize;
        self.cells[at..at + self.width as usize].copy_from_slice(readings);
        self.slots[k] = Slot { tag, part };
    }

    #[tactic(auto, using(crate::proofs::Asked::book_inside, crate::proofs::Asked::book_small, crate::proofs::Writing::valid_cells))]
    fn take_out(&mut self, tag: u16)
        requires { Passes R.Reading.kind self.old (withdraw tag) }
        ensures { Made R.Reading.kind self.old (withdraw tag) self.new }
    {
        let k = self.slot_of(tag).unwrap();
        let at = k * self.width as usize;
        blank_cells(&mut self.cells[at..at + self.width as usize]);
        self.slots[k] = NO_SLOT;
    }

    #[tactic(auto, using(crate::proofs::Asked::book_inside, crate::proofs::Asked::book_small, crate::proofs::Writing::valid_set))]
    fn set_reading(&mut self, tag: u16, test: u32, reading: R)
        requires { Passes R.Reading.kind self.old (amend tag test reading) }
        ensures { Made R.Reading.kind self.old (amend tag test reading) self.new }
    {
        let k = self.slot_of(tag).unwrap();
        let at = k * self.width as usize + (test - 1) as usize;
        self.cells[at] = reading;
    }
}

#[cfg(test)]
mod tests {
    use crate::memory::SlotBook;
    use crate::memory::opened::check as checked;
    use crate::slots::Slot;
    use books::book::Book;
    use books::faults::BookFault;
    use books::shown::Shown;

    // what stood in the memory before
    const OLD: Slot = Slot { tag: 9, part: 9 };

    #[test]
    fn width_comes_before_size(rt: HostRuntime) {
        assert_eq!(rt; checked::<u8>(&[OLD; 2], &[0; 3], 0), Err(BookFault::Width));
        assert_eq!(rt; checked::<u8>(&[OLD; 2], &[0; 3], 2), Err(BookFault::Size));
        assert_eq!(rt; checked::<u8>(&[OLD; 2], &[0; 4], 2), Ok(()));
    }

    #[test]
    fn enters_by_rising_tags(rt: HostRuntime) {
        let mut slots = [OLD; 2];
        let mut cells = [7u8; 4];
        let mut book = SlotBook::new(&mut slots, &mut cells, 2);
        assert_eq!(rt; book.held(), 0);
        assert_eq!(rt; book.enter(8, 3, &[1, 2]), Ok(()));
        assert_eq!(rt; book.enter(5, 4, &[255, 6]), Ok(()));
        assert_eq!(rt; book.next_tag(0), Some(5));
        assert_eq!(rt; book.next_tag(5), Some(8));
        assert_eq!(rt; book.part(8), Some(3));
        assert_eq!(rt; book.reading(5, 2), Some(6));
    }

    #[test]
    fn refuses(rt: HostRuntime) {
        let mut slots = [OLD; 1];
        let mut cells = [7u8; 2];
        let mut book = SlotBook::new(&mut slots, &mut cells, 2);
        assert_eq!(rt; book.enter(0, 3, &[1, 2]), Err(BookFault::NoTag));
        assert_eq!(rt; book.withdraw(8), Err(BookFault::NotHeld(8)));
        assert_eq!(rt; book.enter(8, 3, &[1, 2]), Ok(()));
        assert_eq!(rt; book.enter(8, 4, &[1, 2]), Err(BookFault::Held(8)));
        assert_eq!(rt; book.enter(5, 4, &[1, 2]), Err(BookFault::Full));
    }

    #[test]
    fn withdraws_and_amends(rt: HostRuntime) {
        let mut slots = [OLD; 1];
        let mut cells = [7u8; 2];
        let mut book = SlotBook::new(&mut slots, &mut cells, 2);
        assert_eq!(rt; book.enter(8, 3, &[1, 2]), Ok(()));
        assert_eq!(rt; book.amend(8, 2, 9), Ok(()));
        assert_eq!(rt; book.reading(8, 2), Some(9));
        assert_eq!(rt; book.withdraw(8), Ok(()));
        assert_eq!(rt; book.held(), 0);
        assert_eq!(rt; book.enter(5, 4, &[1, 2]), Ok(()));
    }
}
