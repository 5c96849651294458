// The questions, answered from the page record by record.

ghost use Rattle.std.specs.Prelude.{◌≡◌, ◌+◌, ◌*◌, ◌≤◌, IfSome, count_by, filter, length, map, min, nat_lt, position};
ghost use Rattle.std.specs.List.{reduce};
ghost use Rattle.std.specs.Option.{option_copied};
ghost use Rattle.page_book.specs.Layout.{has_tag, in_use, records_of, tag_at};
ghost use Rattle.page_book.specs.Paged.{page_sound};
ghost use Rattle.page_book.specs.Places.{page_meaning, record_of};

use crate::book::PageBook;
use crate::layout::{FREE, Record, code, part as part_of, records, tag as tag_of};
use books::shown::Shown;

impl Shown for PageBook<'_> {
    type Reading = u8;

    ghost means = { λ b. page_meaning b.page.now b.width };

    ghost sound = { λ b. page_sound b.page.now b.width b.valid };

    fn width(&self) -> u32 {
        self.width
    }

    #[tactic(auto, using(crate::proofs::Asked::counts))]
    fn capacity(&self) -> u32 {
        records(self.page).len() as u32
    }

    #[tactic(auto, using(crate::proofs::Asked::counts))]
    fn held(&self) -> u32 {
        count(self.page) as u32
    }

    fn closed_test(&self, test: u32) -> bool {
        false
    }

    fn closed_part(&self, part: u8) -> bool {
        false
    }

    #[tactic(auto, using(crate::proofs::Asked::next_is))]
    fn next_tag(&self, above: u16) -> Option<u16> {
        lowest_above(self.page, above)
    }

    #[tactic(auto, using(crate::proofs::Asked::part_is))]
    fn part(&self, tag: u16) -> Option<u8> {
        record_of(self.page, tag).map(part_of)
    }

    #[tactic(auto, using(crate::proofs::Asked::readings))]
    fn reading(&self, tag: u16, test: u32) -> Option<u8> {
        if !(1..=self.width).contains(&test) {
            return None;
        }
        let record = record_of(self.page, tag)?;
        Some(code(record, test as usize - 1))
    }
}

impl PageBook<'_> {
    // Where the lowest record with this tag stands; with tag 0, the lowest free one.
    pub(crate) fn place(&self, tag: u16) -> Option<usize>
        ensures first { result ≡ position (has_tag tag) (records_of self.now.page.now) }
        ensures inside { IfSome result (λ k. 32 * k + 32 ≤ length self.now.page.now) }
    {
        records(self.page)
            .iter()
            .position(|record| tag_of(record) == tag)
    }
}

// How many records are in use.
fn count(page: &[u8]) -> usize
    ensures { result ≡ count_by in_use (records_of page.now) }
{
    records(page)
        .iter()
        .filter(|record| tag_of(record) != FREE)
        .count()
}

// The lowest tag above a number.
fn lowest_above(page: &[u8], above: u16) -> Option<u16>
    ensures { result ≡ reduce min (filter (nat_lt above) (map (λ r. tag_at r 0) (records_of page.now))) }
{
    records(page)
        .iter()
        .map(tag_of)
        .filter(|tag| *tag > above)
        .min()
}

// The record in use that has this tag.
#[tactic(auto, unfolding(crate::specs::Places::record_of))]
fn record_of(page: &[u8], tag: u16) -> Option<&Record>
    ensures { option_copied result ≡ record_of page.now tag }
{
    if tag == FREE {
        return None;
    }
    records(page).iter().find(|record| tag_of(record) == tag)
}
