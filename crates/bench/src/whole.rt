// Plans of a whole book, without a bench: the minimal sets of tests that tell all held records of different parts apart.

ghost use Rattle.bench.specs.Ledger.{short_of};
ghost use Rattle.bench.specs.Promise.{Shelved, plans_by};
ghost use Rattle.covers.specs.Answers.{listed, over, told as counts};
ghost use Rattle.refusals.specs.Faults.{answered, leaves};
ghost use Rattle.std.specs.Prelude.{◌≡◌, length, replicate};

use crate::bench::{check_work, list_plans};
use crate::faults::BenchFault;
use books::shown::Shown;
use readings::kinds::Reading;

// Lists all plans of a book into the call's own list, and answers two numbers by a rule of the project, how many and over.
pub fn plans_of<B: Shown>(
    book: &B,
    list: &mut [u32],
    work: &mut [u32],
) -> Result<(u32, u32), BenchFault>
    ensures answer { result ≡ answered (short_of (length work.old)) (counts (length list.old) (plans_by B.Reading.Reading.kind (B.Shown.means book.now))) }
    ensures after { list.new ≡ leaves (short_of (length work.old)) list.old (listed (length list.old) (plans_by B.Reading.Reading.kind (B.Shown.means book.now))) }
    ensures cleared { work.new ≡ leaves (short_of (length work.old)) work.old (replicate (length work.old) 0) }
    ensures plans { Shelved B.Reading.Reading.kind (B.Shown.means book.now) (length (plans_by B.Reading.Reading.kind (B.Shown.means book.now))) (over (length list.old) (plans_by B.Reading.Reading.kind (B.Shown.means book.now))) (listed (length list.old) (plans_by B.Reading.Reading.kind (B.Shown.means book.now))) }
{
    check_work(work)?;
    Ok(list_plans(book, list, work))
}
