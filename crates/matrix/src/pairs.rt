// Two records of a book, compared by their tags. A tag that is not held differs from none and has the empty row.

ghost use Rattle.books.specs.Questions.{find, reading_of};
ghost use Rattle.matrix.specs.Walks.{clashing, differing, row_in};
ghost use Rattle.std.specs.Prelude.{◌≡◌, cond};

use books::shown::Shown;
use readings::kinds::Reading;
use sets::EMPTY;

// Whether two tags are held, and their records are of different parts.
pub fn differ<B: Shown>(book: &B, a: u16, b: u16) -> bool
    ensures { result ≡ differing (find a (B.Shown.means book.now).held) (find b (B.Shown.means book.now).held) }
{
    match (book.part(a), book.part(b)) {
        (Some(first), Some(second)) => first != second,
        _ => false,
    }
}

// The tests that tell the records of two tags apart, from the highest test down.
pub fn row_of<B: Shown>(book: &B, a: u16, b: u16) -> u32
    ensures { result ≡ row_in B.Reading.Reading.kind (find a (B.Shown.means book.now).held) (find b (B.Shown.means book.now).held) }
{
    let mut row = EMPTY;
    for test in (1..=book.width()).rev() {
        row = 2 * row + u32::from(tells(book, a, b, test));
    }
    row
}

// Whether the test tells the two apart: both have a reading there, and the two are not compatible.
fn tells<B: Shown>(book: &B, a: u16, b: u16, test: u32) -> bool
    ensures { cond result 1 0 ≡ clashing B.Reading.Reading.kind (reading_of (B.Shown.means book.now) a test) (reading_of (B.Shown.means book.now) b test) }
{
    match (book.reading(a, test), book.reading(b, test)) {
        (Some(first), Some(second)) => !first.agrees(&second),
        _ => false,
    }
}
