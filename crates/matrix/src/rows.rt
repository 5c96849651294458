// The matrix of a book, over any book and kind, by walking held tags.

ghost use Rattle.std.specs.Prelude.{◌≡◌, ◌+◌, ◌^◌, ◌<◌, ◌≤◌, length, IfSome, slice_set};
ghost use Rattle.books.specs.Questions.{find};
ghost use Rattle.matrix.specs.Apart.{Different, DifferentFrom};
ghost use Rattle.matrix.specs.Rows.{matrix_of, rows_of, rows_with};
ghost use Rattle.matrix.specs.Theorems.{IsMatrix};
ghost use Rattle.matrix.specs.Walks.{above as tags_above, row_in};
ghost use Rattle.std.specs.Option.{option_map};
ghost use Rattle.std.specs.List.{AllByRecursion as Every};
ghost use Rattle.std.proofs.lemmas.List.Edits.{sets};

use crate::pairs::{differ, row_of};
use books::shown::Shown;
use readings::kinds::Reading;
use sets::put;

// Writes the matrix of a book from the first place on and answers how many rows it has; rows for which there is no place are
// counted and not written, and what stands after the rows stays.
pub fn matrix<B: Shown>(book: &B, rows: &mut [u32]) -> usize
    ensures count { result ≡ length (matrix_of B.Reading.Reading.kind (B.Shown.means book.now).held) }
    ensures after { rows.new ≡ sets rows.old 0 (matrix_of B.Reading.Reading.kind (B.Shown.means book.now).held) }
    ensures few { result ≤ 2016 }
    ensures means { IsMatrix B.Reading.Reading.kind (Different (B.Shown.means book.now).held) (matrix_of B.Reading.Reading.kind (B.Shown.means book.now).held) }
    ensures narrow { Every (λ row. row < 2 ^ (B.Shown.means book.now).width) (matrix_of B.Reading.Reading.kind (B.Shown.means book.now).held) }
{
    write_matrix(book, rows)
}

// Apart from the call above so that a wrong call there is refused by a fact, and not by this proof.
fn write_matrix<B: Shown>(book: &B, rows: &mut [u32]) -> usize
    ensures count { result ≡ length (matrix_of B.Reading.Reading.kind (B.Shown.means book.now).held) }
    ensures after { rows.new ≡ sets rows.old 0 (matrix_of B.Reading.Reading.kind (B.Shown.means book.now).held) }
    ensures few { result ≤ 2016 }
    ensures means { IsMatrix B.Reading.Reading.kind (Different (B.Shown.means book.now).held) (matrix_of B.Reading.Reading.kind (B.Shown.means book.now).held) }
    ensures narrow { Every (λ row. row < 2 ^ (B.Shown.means book.now).width) (matrix_of B.Reading.Reading.kind (B.Shown.means book.now).held) }
{
    let mut count = 0;
    let mut last = 0;
    // by the Option of the next tag: a rule of the project
    while let Some(tag) = book.next_tag(last) {
        count = rows_above(book, tag, tag, rows, count);
        last = tag;
    }
    count
}

// Writes the rows of one tag's record with all held records of other parts from the first place on, and answers how many they
// are; where the tag is not held, nothing is written and the answer is none.
pub fn rows_of<B: Shown>(book: &B, tag: u16, rows: &mut [u32]) -> Option<usize>
    ensures answer { result ≡ option_map (λ x. length (rows_with B.Reading.Reading.kind x (B.Shown.means book.now).held)) (find tag (B.Shown.means book.now).held) }
    ensures after { rows.new ≡ sets rows.old 0 (rows_of B.Reading.Reading.kind (B.Shown.means book.now).held (find tag (B.Shown.means book.now).held)) }
    ensures few { IfSome result (λ n. n ≤ 64) }
    ensures means { IfSome (find tag (B.Shown.means book.now).held) (λ x. IsMatrix B.Reading.Reading.kind (DifferentFrom x (B.Shown.means book.now).held) (rows_with B.Reading.Reading.kind x (B.Shown.means book.now).held)) }
    ensures narrow { Every (λ row. row < 2 ^ (B.Shown.means book.now).width) (rows_of B.Reading.Reading.kind (B.Shown.means book.now).held (find tag (B.Shown.means book.now).held)) }
{
    write_rows(book, tag, rows)
}

// Apart from the call above so that a wrong call there is refused by a fact, and not by this proof.
fn write_rows<B: Shown>(book: &B, tag: u16, rows: &mut [u32]) -> Option<usize>
    ensures answer { result ≡ option_map (λ x. length (rows_with B.Reading.Reading.kind x (B.Shown.means book.now).held)) (find tag (B.Shown.means book.now).held) }
    ensures after { rows.new ≡ sets rows.old 0 (rows_of B.Reading.Reading.kind (B.Shown.means book.now).held (find tag (B.Shown.means book.now).held)) }
    ensures few { IfSome result (λ n. n ≤ 64) }
    ensures means { IfSome (find tag (B.Shown.means book.now).held) (λ x. IsMatrix B.Reading.Reading.kind (DifferentFrom x (B.Shown.means book.now).held) (rows_with B.Reading.Reading.kind x (B.Shown.means book.now).held)) }
    ensures narrow { Every (λ row. row < 2 ^ (B.Shown.means book.now).width) (rows_of B.Reading.Reading.kind (B.Shown.means book.now).held (find tag (B.Shown.means book.now).held)) }
{
    book.part(tag)?;
    Some(rows_above(book, tag, 0, rows, 0))
}

// Writes the rows of a tag's record with each held record of a tag above `above`, from place `from` on, and answers the place
// after them. The count goes on where there is no place left, so it is no length of `rows`, and no slice or struct says it plainer.
fn rows_above<B: Shown>(book: &B, tag: u16, above: u16, rows: &mut [u32], from: usize) -> usize
    requires { from ≤ 2016 }
    ensures count { result ≡ from + length (rows_of B.Reading.Reading.kind (tags_above above (B.Shown.means book.now).held) (find tag (B.Shown.means book.now).held)) }
    ensures after { rows.new ≡ sets rows.old from (rows_of B.Reading.Reading.kind (tags_above above (B.Shown.means book.now).held) (find tag (B.Shown.means book.now).held)) }
{
    let mut count = from;
    let mut last = above;
    // by the Option of the next tag: a rule of the project
    while let Some(other) = book.next_tag(last) {
        if differ(book, tag, other) {
            put_row(book, tag, other, rows, count);
            count += 1;
        }
        last = other;
    }
    count
}

// Writes the row of two tags' records, where there is a place for it.
fn put_row<B: Shown>(book: &B, tag: u16, other: u16, rows: &mut [u32], place: usize)
    ensures { rows.new ≡ slice_set rows.old place (row_in B.Reading.Reading.kind (find tag (B.Shown.means book.now).held) (find other (B.Shown.means book.now).held)) }
{
    put(rows, place, row_of(book, tag, other));
}
