// Tags that stand twice on a page.

ghost use Rattle.std.specs.Prelude.{◌≡◌};
ghost use Rattle.std.specs.List.{list_any};
ghost use Rattle.page_book.specs.Layout.{InSize, has_tag};
ghost use Rattle.refusals.specs.Faults.{passed};
ghost use Rattle.page_book.specs.Refused.{twice_fault};

use crate::layout::{FREE, Record, records, tag as tag_of};
use books::faults::PageFault;

// Whether some record has this tag.
fn stands_in(records: &[Record], tag: u16) -> bool
    ensures { result ≡ list_any (has_tag tag) records.now }
{
    records.iter().any(|record| tag_of(record) == tag)
}

// Refuses the lowest record whose tag stands in an earlier one.
pub fn check_tags(page: &[u8]) -> Result<(), PageFault>
    requires { InSize page.now }
    ensures { result ≡ passed (twice_fault page.now) }
{
    let records = records(page);
    for (k, record) in records.iter().enumerate() {
        let tag = tag_of(record);
        if tag != FREE && stands_in(&records[..k], tag) {
            return Err(PageFault::Twice { record: k as u32 });
        }
    }
    Ok(())
}
