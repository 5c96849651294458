// Plans for one record: the minimal sets of tests that tell it apart from all held records of other parts.

ghost use Rattle.std.specs.Prelude.{◌≡◌, ◌≤◌, true, length, replicate, is_some, None};
ghost use Rattle.bench.specs.Single.{Singled, plans_for, single_fault};
ghost use Rattle.books.specs.Questions.{find};
ghost use Rattle.covers.specs.Answers.{listed, over, told as counts};
ghost use Rattle.refusals.specs.Faults.{answered, leaves};

use crate::bench::{check_work, cover_written};
use crate::faults::BenchFault;
use books::shown::Shown;
use books::table::check_withdraw;
use matrix::rows::rows_of;
use readings::kinds::Reading;

// Lists all plans for the record of a tag into the call's own list, and answers two numbers by a rule of the project, how many and over.
#[tactic(auto, using(crate::proofs::Singles::single_none))]
pub fn plans_for<B: Shown>(
    book: &B,
    tag: u16,
    list: &mut [u32],
    work: &mut [u32],
) -> Result<(u32, u32), BenchFault>
    ensures answer { result ≡ answered (single_fault (B.Shown.means book.now) tag (length work.old)) (counts (length list.old) (plans_for B.Reading.Reading.kind (B.Shown.means book.now) tag)) }
    ensures after { list.new ≡ leaves (single_fault (B.Shown.means book.now) tag (length work.old)) list.old (listed (length list.old) (plans_for B.Reading.Reading.kind (B.Shown.means book.now) tag)) }
    ensures cleared { work.new ≡ leaves (single_fault (B.Shown.means book.now) tag (length work.old)) work.old (replicate (length work.old) 0) }
    ensures plans { single_fault (B.Shown.means book.now) tag (length work.old) ≡ None → Singled B.Reading.Reading.kind (B.Shown.means book.now) tag (length (plans_for B.Reading.Reading.kind (B.Shown.means book.now) tag)) (over (length list.old) (plans_for B.Reading.Reading.kind (B.Shown.means book.now) tag)) (listed (length list.old) (plans_for B.Reading.Reading.kind (B.Shown.means book.now) tag)) }
{
    check_work(work)?;
    check_withdraw(book, tag)?;
    Ok(list_single(book, tag, list, work))
}

// Writes the rows of a held record into the work memory, and lists their minimal covers.
fn list_single<B: Shown>(book: &B, tag: u16, list: &mut [u32], work: &mut [u32]) -> (u32, u32)
    requires { (2016 ≤ length work.old) × (is_some (find tag (B.Shown.means book.now).held) ≡ true) }
    ensures answer { result ≡ counts (length list.old) (plans_for B.Reading.Reading.kind (B.Shown.means book.now) tag) }
    ensures after { list.new ≡ listed (length list.old) (plans_for B.Reading.Reading.kind (B.Shown.means book.now) tag) }
    ensures cleared { work.new ≡ replicate (length work.old) 0 }
{
    let count = rows_of(book, tag, work).unwrap();
    cover_written(book.width(), count, list, work)
}
