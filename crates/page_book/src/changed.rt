// One change in a page that the caller holds: checked, opened, changed, and the caller's again.

ghost use Rattle.books.specs.Changes.{amend, enter, withdraw};
ghost use Rattle.page_book.specs.ChangedIn.{ChangedIn};

use crate::book::PageBook;
use crate::checks::check;
use books::book::Book;
use books::faults::BookFault;

// Enters a record: the lowest free record of the page gets its bytes.
#[tactic(auto, using(crate::specs::Valid::opened_valid, crate::specs::Valid::valid_accepted))]
pub fn enter_in(
    page: &mut [u8],
    width: u32,
    tag: u16,
    part: u8,
    readings: &[u8],
) -> Result<(), BookFault>
    ensures { ChangedIn page.old width (enter tag part readings.now) page.new result }
{
    check(page, width)?;
    PageBook { page, width }.enter(tag, part, readings)
}

// Withdraws the record of a tag: its bytes are zero.
#[tactic(auto, using(crate::specs::Valid::opened_valid, crate::specs::Valid::valid_accepted))]
pub fn withdraw_in(page: &mut [u8], width: u32, tag: u16) -> Result<(), BookFault>
    ensures { ChangedIn page.old width (withdraw tag) page.new result }
{
    check(page, width)?;
    PageBook { page, width }.withdraw(tag)
}

// Sets one reading of the record of a tag: one byte.
#[tactic(auto, using(crate::specs::Valid::opened_valid, crate::specs::Valid::valid_accepted))]
pub fn amend_in(
    page: &mut [u8],
    width: u32,
    tag: u16,
    test: u32,
    reading: u8,
) -> Result<(), BookFault>
    ensures { ChangedIn page.old width (amend tag test reading) page.new result }
{
    check(page, width)?;
    PageBook { page, width }.amend(tag, test, reading)
}

#[cfg(test)]
mod tests {
    use crate::changed::{amend_in as amended, enter_in as entered, withdraw_in as withdrawn};
    use books::faults::{BookFault, PageFault};

    const LEN: usize = 64;

    // the second record of two, the first being in use
    #[test]
    fn entered_in_the_free_record(rt: HostRuntime) {
        let mut page = [0; LEN];
        assert_eq!(rt; entered(&mut page, 2, 9, 1, &[0, 0]), Ok(()));
        assert_eq!(rt; entered(&mut page, 2, 1031, 3, &[10, 255]), Ok(()));
        assert_eq!(rt; page[0], 9);
        assert_eq!(rt; page[32], 7);
        assert_eq!(rt; page[33], 4);
        assert_eq!(rt; page[34], 3);
        assert_eq!(rt; page[36], 10);
        assert_eq!(rt; page[59], 255);
        assert_eq!(rt; page[60], 0);
        assert_eq!(rt; entered(&mut page, 2, 2, 1, &[0, 0]), Err(BookFault::Full));
    }

    #[test]
    fn withdrawn_and_amended(rt: HostRuntime) {
        let mut page = [0; LEN];
        assert_eq!(rt; entered(&mut page, 2, 9, 1, &[0, 0]), Ok(()));
        assert_eq!(rt; amended(&mut page, 2, 9, 2, 77), Ok(()));
        assert_eq!(rt; page[5], 77);
        assert_eq!(rt; amended(&mut page, 2, 9, 3, 1), Err(BookFault::Test(3)));
        assert_eq!(rt; withdrawn(&mut page, 2, 8), Err(BookFault::NotHeld(8)));
        assert_eq!(rt; withdrawn(&mut page, 2, 9), Ok(()));
        assert_eq!(rt; page[5], 0);
        assert_eq!(rt; page[27], 0);
    }

    // the page's own fault comes first, and the page stays
    #[test]
    fn page_before_table(rt: HostRuntime) {
        let mut page = [0; LEN];
        page[35] = 1;
        let against = Err(BookFault::InPage(PageFault::Layout { record: 1, byte: 2 }));
        page[34] = 1;
        assert_eq!(rt; entered(&mut page, 2, 0, 0, &[]), against);
        assert_eq!(rt; page[34], 1);
        assert_eq!(rt; entered(&mut page, 0, 0, 0, &[]), Err(BookFault::Width));
    }
}
