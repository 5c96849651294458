// The matrix straight from a page: for each two records in use that are of different parts, the tests that tell them apart.

ghost use Rattle.std.specs.Prelude.{◌≡◌, ◌+◌, ◌^◌, ◌<◌, ◌≤◌, length, IfOk, OnOk};
ghost use Rattle.page_book.specs.Layout.{InSize};
ghost use Rattle.page_book.specs.Earlier.{row_of_two, rows_after, two_differ};
ghost use Rattle.page_book.specs.Refused.{refused_page};
ghost use Rattle.page_book.specs.Rows.{IsMatrix, matrix_of, same_or_blank};
ghost use Rattle.refusals.specs.Faults.{answered, leaves};
ghost use Rattle.std.specs.List.{AllByRecursion as Every};
ghost use Rattle.std.proofs.lemmas.List.Edits.{sets};

use crate::checks::check;
use crate::layout::{BLANK, FREE, Record, code, part, records, tag};
use books::faults::BookFault;

// places of a row, one for each test of the widest page
const TESTS: usize = 24;

// as many as two of 64 records can be chosen
pub const MOST_ROWS: usize = 2016;

// Writes the matrix of a page into the lowest places of `rows` and answers how many rows it has; what stands after them stays.
// A page that the check refuses is refused alike, and `rows` stays as it was.
pub fn matrix(page: &[u8], width: u32, rows: &mut [u32; MOST_ROWS]) -> Result<usize, BookFault>
    ensures answer { result ≡ answered (refused_page page.now width) (length (matrix_of page.now)) }
    ensures after { rows.new ≡ leaves (refused_page page.now width) rows.old (sets rows.old 0 (matrix_of page.now)) }
    ensures means { OnOk result (IsMatrix page.now (matrix_of page.now)) }
    ensures below { OnOk result (Every (λ s. s < 2 ^ 24) (matrix_of page.now)) }
    ensures fits { IfOk result (λ n. n ≤ 2016) }
{
    check(page, width)?;
    Ok(write_rows(page, rows))
}

// Apart from the call above so that a wrong call there is refused by a fact, and not by this proof.
fn write_rows(page: &[u8], rows: &mut [u32]) -> usize
    requires { (InSize page.now) × (2016 ≤ length rows.old) }
    ensures count { result ≡ length (matrix_of page.now) }
    ensures after { rows.new ≡ sets rows.old 0 (matrix_of page.now) }
    ensures means { IsMatrix page.now (matrix_of page.now) }
    ensures fits { result ≤ 2016 }
    ensures below { Every (λ s. s < 2 ^ 24) (matrix_of page.now) }
{
    let records = records(page);
    let mut count = 0;
    for (k, record) in records.iter().enumerate() {
        count = rows_with(&records[..k], record, rows, count);
    }
    count
}

// Writes the rows of a record with each earlier one from place `from` on, and answers the place after them. Memory and place, and no part of
// the memory lent for them: what stands in all of it afterwards is what the callers tell. The count steps only where two records differ.
fn rows_with(earlier: &[Record], later: &Record, rows: &mut [u32], from: usize) -> usize
    requires { from + length earlier.now ≤ length rows.old }
    ensures count { result ≡ from + length (rows_after later.now earlier.now) }
    ensures after { rows.new ≡ sets rows.old from (rows_after later.now earlier.now) }
{
    let mut count = from;
    for other in earlier {
        if differ(other, later) {
            rows[count] = row_of(other, later);
            count += 1;
        }
    }
    count
}

// Whether two records are in use and of different parts.
fn differ(other: &Record, later: &Record) -> bool
    ensures { result ≡ two_differ other.now later.now }
{
    tag(other) != FREE && tag(later) != FREE && part(other) != part(later)
}

// The tests that tell two records apart.
fn row_of(other: &Record, later: &Record) -> u32
    ensures { result ≡ row_of_two other.now later.now }
{
    let mut row = 0;
    // over places and no readings: the test at a place counts 2 to the power of the place
    for place in 0..TESTS {
        if !compatible(code(other, place), code(later, place)) {
            row += 1 << place;
        }
    }
    row
}

// Whether two readings do not tell apart: they are equal, or one is blank.
fn compatible(a: u8, b: u8) -> bool
    ensures { result ≡ same_or_blank a b }
{
    a == b || a == BLANK || b == BLANK
}
