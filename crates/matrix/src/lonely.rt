// The core of a book: the tests that alone tell some two held records of different parts apart, found by walking held tags.

ghost use Rattle.std.specs.Prelude.{◌≡◌, ℕ, ◌↔◌};
ghost use Rattle.books.specs.Questions.{find};
ghost use Rattle.covers.specs.Plans.{core_of};
ghost use Rattle.covers.specs.Theorems.{Common};
ghost use Rattle.matrix.specs.Rows.{matrix_of, rows_of};
ghost use Rattle.matrix.specs.Theorems.{Alone};
ghost use Rattle.matrix.specs.Walks.{above};
ghost use Rattle.sets.specs.Sets.{Has};

use crate::pairs::{differ, row_of};
use books::shown::Shown;
use readings::kinds::Reading;
use sets::{EMPTY, single};

// The set of tests that alone tell some two held records of different parts apart; wherever there is a plan, the tests common
// to all plans.
pub fn core<B: Shown>(book: &B) -> u32
    ensures answer { result ≡ core_of (matrix_of B.Reading.Reading.kind (B.Shown.means book.now).held) }
    ensures alone { (j : ℕ) → Has j result ↔ Alone B.Reading.Reading.kind (B.Shown.means book.now).held j }
    ensures common { Common (matrix_of B.Reading.Reading.kind (B.Shown.means book.now).held) result }
{
    alone_in(book)
}

// Apart from the call above so that a wrong call there is refused by a fact, and not by this proof.
fn alone_in<B: Shown>(book: &B) -> u32
    ensures answer { result ≡ core_of (matrix_of B.Reading.Reading.kind (B.Shown.means book.now).held) }
    ensures alone { (j : ℕ) → Has j result ↔ Alone B.Reading.Reading.kind (B.Shown.means book.now).held j }
    ensures common { Common (matrix_of B.Reading.Reading.kind (B.Shown.means book.now).held) result }
{
    let mut alone = EMPTY;
    let mut last = 0;
    // by the Option of the next tag: a rule of the project
    while let Some(tag) = book.next_tag(last) {
        alone |= alone_above(book, tag);
        last = tag;
    }
    alone
}

// The tests that stand alone in some row of a tag's record with a record of a higher tag.
fn alone_above<B: Shown>(book: &B, tag: u16) -> u32
    ensures { result ≡ core_of (rows_of B.Reading.Reading.kind (above tag (B.Shown.means book.now).held) (find tag (B.Shown.means book.now).held)) }
{
    let mut alone = EMPTY;
    let mut last = tag;
    // by the Option of the next tag: a rule of the project
    while let Some(other) = book.next_tag(last) {
        if differ(book, tag, other) {
            alone |= single(row_of(book, tag, other));
        }
        last = other;
    }
    alone
}
