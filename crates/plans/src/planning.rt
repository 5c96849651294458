// The plans of a page: its matrix, straight from the records, and all minimal covers of that.

ghost use Rattle.bench.specs.Promise.{plans_by};
ghost use Rattle.covers.specs.Answers.{listed, told};
ghost use Rattle.covers.specs.Plans.{plans_of};
ghost use Rattle.covers.specs.Theorems.{Fair, Lists};
ghost use Rattle.matrix.specs.Rows.{matrix_of as matrix_of_book};
ghost use Rattle.page_book.specs.Places.{page_meaning};
ghost use Rattle.page_book.specs.Refused.{refused_page};
ghost use Rattle.page_book.specs.Rows.{IsMatrix, matrix_of};
ghost use Rattle.readings.specs.Codes.{codes};
ghost use Rattle.refusals.specs.Faults.{answered, leaves};
ghost use Rattle.std.specs.List.{AllByRecursion as Every};
ghost use Rattle.std.specs.Prelude.{◌≡◌, ℕ, ◌^◌, ◌<◌, None, OnOk, length};

use books::faults::BookFault;
use covers::listing::cover;
use page_book::rows::{MOST_ROWS, matrix};
use sets::EMPTY;

// the width at which the program reads a page
const WIDTH: u32 = 24;

// Lists the plans of a page, answering two numbers by a rule of the project, how many and over; refuses a page that is not well formed and leaves the list.
// They are the plans of the book that the page is. The rows come straight from the records, since a book looks each reading up by its tag.
pub fn plans_of(page: &[u8], list: &mut [u32]) -> Result<(u32, u32), BookFault>
    ensures answer { result ≡ answered (refused_page page.now 24) (told (length list.old) (plans_by codes (page_meaning page.now 24))) }
    ensures after { list.new ≡ leaves (refused_page page.now 24) list.old (listed (length list.old) (plans_by codes (page_meaning page.now 24))) }
    ensures rows { (width : ℕ) → refused_page page.now width ≡ None → IsMatrix page.now (matrix_of_book codes (page_meaning page.now width).held) }
    ensures plans { refused_page page.now 24 ≡ None → Lists (matrix_of_book codes (page_meaning page.now 24).held) (plans_by codes (page_meaning page.now 24)) }
    ensures page_rows { OnOk result (IsMatrix page.now (matrix_of page.now)) }
    ensures page_plans { OnOk result (Lists (matrix_of page.now) (plans_of (matrix_of page.now) 24)) }
    ensures same { refused_page page.now 24 ≡ None → plans_by codes (page_meaning page.now 24) ≡ plans_of (matrix_of page.now) 24 }
{
    plans_at(page, WIDTH, list)
}

// Apart from the call above so that a wrong call there is refused by a fact, and not by this proof.
fn plans_at(page: &[u8], width: u32, list: &mut [u32]) -> Result<(u32, u32), BookFault>
    ensures answer { result ≡ answered (refused_page page.now width) (told (length list.old) (plans_by codes (page_meaning page.now width))) }
    ensures after { list.new ≡ leaves (refused_page page.now width) list.old (listed (length list.old) (plans_by codes (page_meaning page.now width))) }
    ensures rows { (w : ℕ) → refused_page page.now w ≡ None → IsMatrix page.now (matrix_of_book codes (page_meaning page.now w).held) }
    ensures plans { refused_page page.now width ≡ None → Lists (matrix_of_book codes (page_meaning page.now width).held) (plans_by codes (page_meaning page.now width)) }
    ensures page_rows { OnOk result (IsMatrix page.now (matrix_of page.now)) }
    ensures page_plans { OnOk result (Lists (matrix_of page.now) (plans_of (matrix_of page.now) width)) }
    ensures same { refused_page page.now width ≡ None → plans_by codes (page_meaning page.now width) ≡ plans_of (matrix_of page.now) width }
{
    let mut rows = [EMPTY; MOST_ROWS];
    let count = matrix(page, width, &mut rows)?;
    Ok(cover_rows(width, &rows[..count], list))
}

// Lists the minimal covers of rows that have no test past the width: the cover call does not refuse them.
fn cover_rows(width: u32, rows: &[u32], list: &mut [u32]) -> (u32, u32)
    requires { (Fair width) × (Every (λ s. s < 2 ^ width) rows.now) }
    ensures answer { result ≡ told (length list.old) (plans_of rows.now width) }
    ensures after { list.new ≡ listed (length list.old) (plans_of rows.now width) }
    ensures plans { Lists rows.now (plans_of rows.now width) }
{
    cover(width, rows, list).unwrap()
}
