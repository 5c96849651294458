// A page opened as a book: of bytes that the check refuses, a book of width 1 with no room.

ghost use Rattle.page_book.specs.Kept.{book_means, opened_meaning};
ghost use Rattle.page_book.specs.Refused.{refused_page};
ghost use Rattle.refusals.specs.Faults.{leaves};
ghost use Rattle.std.specs.Prelude.{◌≡◌, [], None};

use crate::book::PageBook;
use crate::checks::check;

impl<'a> PageBook<'a> {
    // The page itself as a book of this width; a book of width 1 with no room where the check refuses.
    #[tactic(auto, using(crate::specs::Valid::opened_valid, crate::specs::Valid::valid_empty, crate::specs::Paged::opened_refused))]
    pub fn new(page: &'a mut [u8], width: u32) -> PageBook<'a>
        ensures means { book_means result ≡ opened_meaning page.old width }
        ensures wide { result.width ≡ leaves (refused_page page.old width) 1 width }
        ensures holds { result.page.now ≡ leaves (refused_page page.old width) [] page.old }
        ensures lent { refused_page page.old width ≡ None → result.page.ghost_name ≡ page.entry.ghost_name }
    {
        if check(page, width).is_err() {
            return PageBook {
                page: &mut [],
                width: 1,
            };
        }
        PageBook { page, width }
    }
}
