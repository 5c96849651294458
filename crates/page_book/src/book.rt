// The page book: the page in the caller's memory is itself the book.

ghost use Rattle.page_book.specs.Places.{valid};
ghost use Rattle.std.specs.Prelude.{◌≡◌, true};

// the questions
pub mod shown;

// a page opened
pub mod opened;

// the changes
pub mod changes;

// the bytes of a record, written
mod written;

// A page that passes its check at this width, always.
#[derive(Drop)]
pub struct PageBook<'a> {
    pub(crate) page: &'a mut [u8],
    pub(crate) width: u32,
    ghost valid: { valid page.now width ≡ true },
}
