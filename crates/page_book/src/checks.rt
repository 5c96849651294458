// Whether bytes are a page: the width, the size, each record against the layout, tags that stand twice, in this order.

ghost use Rattle.page_book.specs.Layout.{InSize};
ghost use Rattle.refusals.specs.Faults.{passed};
ghost use Rattle.page_book.specs.Refused.{fit_fault, layout_fault, refused_page};
ghost use Rattle.page_book.specs.Told.{Accepted, AgainstLayout, Misfit, TagTwice};
ghost use Rattle.std.specs.Prelude.{◌≡◌, OnOk};

use crate::layout::{LARGEST, NARROWEST, RECORD, WIDEST, records, wrong_byte};
use crate::tags::check_tags;
use books::faults::{BookFault, PageFault};

// Whether the bytes are a page of this width: accepted exactly when it is well formed; else the first fault in rising number,
// a record against the layout by its lowest wrong byte.
#[tactic(auto, using(crate::specs::Answered::clauses))]
pub fn check(page: &[u8], width: u32) -> Result<(), BookFault>
    ensures answer { result ≡ passed (refused_page page.now width) }
    ensures accepted { Accepted page.now width result }
    ensures misfit { Misfit page.now width result }
    ensures layout { AgainstLayout page.now width result }
    ensures twice { TagTwice page.now width result }
{
    check_fit(page, width)?;
    check_layout(page, width)?;
    check_tags(page)?;
    Ok(())
}

// Refuses a width that is not 1 to 24, then a size that is not that of whole records, at most 64 of them.
fn check_fit(page: &[u8], width: u32) -> Result<(), BookFault>
    ensures answer { result ≡ passed (fit_fault page.now width) }
    ensures fits { OnOk result (InSize page.now) }
{
    if !(NARROWEST..=WIDEST).contains(&width) {
        return Err(BookFault::Width);
    }
    if page.len() > LARGEST || page.len() % RECORD != 0 {
        return Err(BookFault::Size);
    }
    Ok(())
}

// Refuses the lowest record against the layout, at its lowest wrong byte.
fn check_layout(page: &[u8], width: u32) -> Result<(), PageFault>
    requires { InSize page.now }
    ensures { result ≡ passed (layout_fault page.now width) }
{
    for (k, record) in records(page).iter().enumerate() {
        if let Some(at) = wrong_byte(record, width) {
            return Err(PageFault::Layout {
                record: k as u32,
                byte: at as u32,
            });
        }
    }
    Ok(())
}

#[cfg(test)]
mod tests {
    use crate::checks::check as checked;
    use books::faults::{BookFault, PageFault};

    const LEN: usize = 64;

    // a record in use with tag 7, part 3 and two readings, and a free record
    fn two_records() -> [u8; LEN] {
        let mut page = [0; LEN];
        page[0] = 7;
        page[2] = 3;
        page[6..28].fill(255);
        page
    }

    fn layout(record: u32, byte: u32) -> Result<(), BookFault> {
        Err(BookFault::InPage(PageFault::Layout { record, byte }))
    }

    fn twice(record: u32) -> Result<(), BookFault> {
        Err(BookFault::InPage(PageFault::Twice { record }))
    }

    #[test]
    fn right_pages(rt: HostRuntime) {
        assert_eq!(rt; checked(&[], 24), Ok(()));
        assert_eq!(rt; checked(&two_records(), 2), Ok(()));
        assert_eq!(rt; checked(&two_records(), 1), layout(0, 5));
    }

    #[test]
    fn width_comes_before_size(rt: HostRuntime) {
        assert_eq!(rt; checked(&[0; 33], 0), Err(BookFault::Width));
        assert_eq!(rt; checked(&[0; 33], 25), Err(BookFault::Width));
        assert_eq!(rt; checked(&[0; 33], 1), Err(BookFault::Size));
    }

    #[test]
    fn lowest_wrong_byte(rt: HostRuntime) {
        let mut page = two_records();
        page[63] = 1;
        assert_eq!(rt; checked(&page, 2), layout(1, 31));
        page[27] = 0;
        assert_eq!(rt; checked(&page, 2), layout(0, 27));
        assert_eq!(rt; checked(&page, 24), layout(1, 31));
        page[3] = 1;
        assert_eq!(rt; checked(&page, 24), layout(0, 3));
    }

    #[test]
    fn layout_comes_before_tags(rt: HostRuntime) {
        let mut page = two_records();
        page[32] = 7;
        assert_eq!(rt; checked(&page, 24), layout(1, 2));
        page[34] = 250;
        assert_eq!(rt; checked(&page, 24), twice(1));
        page[33] = 1;
        assert_eq!(rt; checked(&page, 24), Ok(()));
    }
}
