// The faults of a page and of a book; the book's fault carries the page's whole.

ghost use Rattle.books.specs.Lines.{page_line, book_line};
ghost use Rattle.books.specs.declared.faults.BookFault.TheVariants.{InPage};
ghost use Rattle.std.specs.Prelude.{◌≡◌};

use refusals::{Origin, Place, Refusal};

// A page whose bytes are no book.
#[derive(Clone, Copy, PartialEq, Eq, Debug)]
pub enum PageFault {
    // the record is against the layout, first at this byte
    Layout { record: u32, byte: u32 },
    // the record's tag stands in an earlier record
    Twice { record: u32 },
}

// A book that is not to be opened, or a change that it refuses.
#[derive(Clone, Copy, PartialEq, Eq, Debug)]
pub enum BookFault {
    // the width is not 1 to 24
    Width,
    // the memory is no book's by its size
    Size,
    // the page refuses
    InPage(PageFault),
    // the tag is 0
    NoTag,
    // the part is not 1 to 250
    Part(u8),
    // the readings are not as many as the width
    Readings,
    // the test is outside the width
    Test(u32),
    // the part is closed
    ClosedPart(u8),
    // the test is closed
    ClosedTest(u32),
    // the tag is held
    Held(u16),
    // as many records are held as there is room for
    Full,
    // the tag is not held
    NotHeld(u16),
}

// The fault's line of the refusal table.
impl From<PageFault> for Refusal {
    ghost from_gives = { λ fault r. r ≡ page_line fault };

    fn from(fault: PageFault) -> Refusal {
        let (number, record, byte) = match fault {
            PageFault::Layout { record, byte } => (3, record, byte),
            PageFault::Twice { record } => (4, record, 0),
        };
        Refusal {
            number,
            origin: Origin::Page,
            place: Place::InPage { record, byte },
        }
    }
}

// The fault's line of the refusal table.
impl From<BookFault> for Refusal {
    ghost from_gives = { λ fault r. r ≡ book_line fault };

    fn from(fault: BookFault) -> Refusal {
        match fault {
            BookFault::Width => Refusal::at(1, Origin::Book, 0),
            BookFault::Size => Refusal::at(2, Origin::Book, 0),
            BookFault::InPage(fault) => fault.into(),
            BookFault::NoTag => Refusal::at(5, Origin::Book, 0),
            BookFault::Part(part) => Refusal::at(6, Origin::Book, part.into()),
            BookFault::Readings => Refusal::at(7, Origin::Book, 0),
            BookFault::Test(test) => Refusal::at(8, Origin::Book, test.into()),
            BookFault::ClosedPart(part) => Refusal::at(9, Origin::Assembly, part.into()),
            BookFault::ClosedTest(test) => Refusal::at(10, Origin::Bar, test.into()),
            BookFault::Held(tag) => Refusal::at(11, Origin::Book, tag.into()),
            BookFault::Full => Refusal::at(12, Origin::Book, 0),
            BookFault::NotHeld(tag) => Refusal::at(13, Origin::Book, tag.into()),
        }
    }
}

// A page's fault goes up whole, with its record and byte.
impl From<PageFault> for BookFault {
    ghost from_gives = { λ fault r. r ≡ InPage fault };

    fn from(fault: PageFault) -> BookFault {
        BookFault::InPage(fault)
    }
}
