// The changes: each rewrites the bytes of its record, and the page passes its own check again.

ghost use Rattle.page_book.specs.Kept.{book_rewrites};

use crate::book::PageBook;
use crate::book::written::{entered, write_record};
use crate::layout::{FREE, READINGS, RECORD};
use books::book::Book;
use books::faults::BookFault;
use books::table::{check_amend, check_enter, check_withdraw};

impl Book for PageBook<'_> {
    ghost rewrites = { book_rewrites };

    // The lowest free record gets the bytes.
    #[tactic(auto, using(crate::proofs::Changing::entering))]
    fn enter(&mut self, tag: u16, part: u8, readings: &[u8]) -> Result<(), BookFault> {
        check_enter(self, tag, part, readings)?;
        // once the table passes, it is there; an `unwrap` would want that as a premise of a function of its own, no plainer
        let k = self.place(FREE).ok_or(BookFault::Full)?;
        write_record(self.page, k, &entered(tag, part, readings));
        Ok(())
    }

    #[tactic(auto, using(crate::proofs::Changing::withdrawing))]
    fn withdraw(&mut self, tag: u16) -> Result<(), BookFault> {
        check_withdraw(self, tag)?;
        // once the table passes, it is there; an `unwrap` would want that as a premise of a function of its own, no plainer
        let k = self.place(tag).ok_or(BookFault::NotHeld(tag))?;
        write_record(self.page, k, &[0; RECORD]);
        Ok(())
    }

    #[tactic(auto, using(crate::proofs::Changing::amending))]
    fn amend(&mut self, tag: u16, test: u32, reading: u8) -> Result<(), BookFault> {
        check_amend(self, tag, test, reading)?;
        // once the table passes, it is there; an `unwrap` would want that as a premise of a function of its own, no plainer
        let k = self.place(tag).ok_or(BookFault::NotHeld(tag))?;
        self.page[RECORD * k + READINGS + test as usize - 1] = reading;
        Ok(())
    }
}
