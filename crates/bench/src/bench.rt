// The bench: a book, and what its last accepted call counted. List and work memory are arguments of each call, and no struct: they are the
// caller's, who may lend other memory to the next call.

ghost use Rattle.std.specs.Prelude.{◌≡◌, ◌^◌, ◌<◌, ◌≤◌, length, take, replicate};
ghost use Rattle.bench.specs.Ledger.{change, shelve, short_of};
ghost use Rattle.bench.specs.Promise.{plans_by};
ghost use Rattle.bench.specs.Steps.{Listed, Relisted, Stepped};
ghost use Rattle.books.specs.Changes.{amend, enter, withdraw};
ghost use Rattle.covers.specs.Answers.{listed, told};
ghost use Rattle.covers.specs.Plans.{plans_of};
ghost use Rattle.covers.specs.Theorems.{Fair};
ghost use Rattle.refusals.specs.Faults.{passed};
ghost use Rattle.std.specs.List.{AllByRecursion as Every};

use crate::faults::BenchFault;
use books::book::Book;
use books::faults::BookFault;
use books::shown::Shown;
use covers::listing::cover;
use matrix::rows::matrix;
use readings::kinds::Reading;
use sets::clear;

// work memory holds the largest matrix: 64 × 63 / 2 rows
pub const MOST_ROWS: usize = 2016;

#[derive(Drop)]
pub struct Bench<B> {
    book: B,
    // how many plans the last accepted call counted
    count: u32,
    // 1 where they were more than the places of the list, else 0: a rule of the project, whose user takes two numbers for an answer
    over: u32,
}

impl<B: Book> Bench<B> {
    // A bench of this book, with nothing counted yet.
    pub fn new(book: B) -> Bench<B>
        ensures { result ≡ record { book = book; count = 0; over = 0 } }
    {
        Bench {
            book,
            count: 0,
            over: 0,
        }
    }

    // The book, for its questions.
    pub fn book(&self) -> &B
        ensures { result.now ≡ self.now.book }
    {
        &self.book
    }

    // The two numbers of the last accepted call: how many plans, and over; both 0 on a new bench.
    pub fn counted(&self) -> (u32, u32)
        ensures { result ≡ (self.now.count, self.now.over) }
    {
        (self.count, self.over)
    }

    // Fills the list with all plans of the book, and answers their number and over.
    pub fn shelve(&mut self, list: &mut [u32], work: &mut [u32]) -> Result<(u32, u32), BenchFault>
        ensures { Stepped B.Reading.Reading.kind B.Shown.means B.Book.rewrites (shelve (length work.old)) self.old self.new list.old list.new work.old work.new result }
    {
        shelve_on(self, list, work)
    }

    // Enters a record, then shelves.
    pub fn enter(
        &mut self,
        tag: u16,
        part: u8,
        readings: &[B::Reading],
        list: &mut [u32],
        work: &mut [u32],
    ) -> Result<(u32, u32), BenchFault>
        ensures { Stepped B.Reading.Reading.kind B.Shown.means B.Book.rewrites (change (length work.old) (enter tag part readings.now)) self.old self.new list.old list.new work.old work.new result }
    {
        enter_on(self, tag, part, readings, list, work)
    }

    // Withdraws the record of a tag, then shelves.
    pub fn withdraw(
        &mut self,
        tag: u16,
        list: &mut [u32],
        work: &mut [u32],
    ) -> Result<(u32, u32), BenchFault>
        ensures { Stepped B.Reading.Reading.kind B.Shown.means B.Book.rewrites (change (length work.old) (withdraw tag)) self.old self.new list.old list.new work.old work.new result }
    {
        withdraw_on(self, tag, list, work)
    }

    // Sets one reading of the record of a tag, then shelves.
    pub fn amend(
        &mut self,
        tag: u16,
        test: u32,
        reading: B::Reading,
        list: &mut [u32],
        work: &mut [u32],
    ) -> Result<(u32, u32), BenchFault>
        ensures { Stepped B.Reading.Reading.kind B.Shown.means B.Book.rewrites (change (length work.old) (amend tag test reading)) self.old self.new list.old list.new work.old work.new result }
    {
        amend_on(self, tag, test, reading, list, work)
    }
}

// Apart from the call above so that a wrong call there is refused by a fact, and not by this proof.
fn shelve_on<B: Book>(
    bench: &mut Bench<B>,
    list: &mut [u32],
    work: &mut [u32],
) -> Result<(u32, u32), BenchFault>
    ensures { Stepped B.Reading.Reading.kind B.Shown.means B.Book.rewrites (shelve (length work.old)) bench.old bench.new list.old list.new work.old work.new result }
{
    check_work(work)?;
    Ok(list_again(bench, list, work))
}

// Apart from the call above so that a wrong call there is refused by a fact, and not by this proof.
fn enter_on<B: Book>(
    bench: &mut Bench<B>,
    tag: u16,
    part: u8,
    readings: &[B::Reading],
    list: &mut [u32],
    work: &mut [u32],
) -> Result<(u32, u32), BenchFault>
    ensures { Stepped B.Reading.Reading.kind B.Shown.means B.Book.rewrites (change (length work.old) (enter tag part readings.now)) bench.old bench.new list.old list.new work.old work.new result }
{
    check_work(work)?;
    let changed = bench.book.enter(tag, part, readings);
    list_changed(bench, changed, list, work)
}

// Apart from the call above so that a wrong call there is refused by a fact, and not by this proof.
fn withdraw_on<B: Book>(
    bench: &mut Bench<B>,
    tag: u16,
    list: &mut [u32],
    work: &mut [u32],
) -> Result<(u32, u32), BenchFault>
    ensures { Stepped B.Reading.Reading.kind B.Shown.means B.Book.rewrites (change (length work.old) (withdraw tag)) bench.old bench.new list.old list.new work.old work.new result }
{
    check_work(work)?;
    let changed = bench.book.withdraw(tag);
    list_changed(bench, changed, list, work)
}

// Apart from the call above so that a wrong call there is refused by a fact, and not by this proof.
fn amend_on<B: Book>(
    bench: &mut Bench<B>,
    tag: u16,
    test: u32,
    reading: B::Reading,
    list: &mut [u32],
    work: &mut [u32],
) -> Result<(u32, u32), BenchFault>
    ensures { Stepped B.Reading.Reading.kind B.Shown.means B.Book.rewrites (change (length work.old) (amend tag test reading)) bench.old bench.new list.old list.new work.old work.new result }
{
    check_work(work)?;
    let changed = bench.book.amend(tag, test, reading);
    list_changed(bench, changed, list, work)
}

// Lists again where the book was changed; where it refused, its fault goes up and all is as it was. Four private functions ask for
// enough work memory: a struct with that fact would hold the caller's memory under a ghost name, no plainer.
fn list_changed<B: Book>(
    bench: &mut Bench<B>,
    changed: Result<(), BookFault>,
    list: &mut [u32],
    work: &mut [u32],
) -> Result<(u32, u32), BenchFault>
    requires { 2016 ≤ length work.old }
    ensures { Relisted B.Reading.Reading.kind B.Shown.means B.Book.rewrites changed bench.old bench.new list.old list.new work.old work.new result }
{
    changed?;
    Ok(list_again(bench, list, work))
}

// Refuses work memory that is too short for the largest matrix.
pub(crate) fn check_work(work: &[u32]) -> Result<(), BenchFault>
    ensures { result ≡ passed (short_of (length work.now)) }
{
    if work.len() < MOST_ROWS {
        return Err(BenchFault::Work);
    }
    Ok(())
}

// Lists the plans of the book as it is now, and notes the two numbers.
fn list_again<B: Book>(bench: &mut Bench<B>, list: &mut [u32], work: &mut [u32]) -> (u32, u32)
    requires { 2016 ≤ length work.old }
    ensures { Listed B.Reading.Reading.kind B.Shown.means bench.old bench.new list.old list.new work.old work.new result }
{
    let (count, over) = list_plans(&bench.book, list, work);
    bench.count = count;
    bench.over = over;
    (count, over)
}

// Writes the matrix into the work memory, and lists its minimal covers.
pub(crate) fn list_plans<B: Shown>(book: &B, list: &mut [u32], work: &mut [u32]) -> (u32, u32)
    requires { 2016 ≤ length work.old }
    ensures answer { result ≡ told (length list.old) (plans_by B.Reading.Reading.kind (B.Shown.means book.now)) }
    ensures after { list.new ≡ listed (length list.old) (plans_by B.Reading.Reading.kind (B.Shown.means book.now)) }
    ensures cleared { work.new ≡ replicate (length work.old) 0 }
{
    let count = matrix(book, work);
    cover_written(book.width(), count, list, work)
}

// Lists the minimal covers of the rows in the first places of the work memory, and clears it: all of it, so that no slice of the rows serves.
pub(crate) fn cover_written(
    width: u32,
    count: usize,
    list: &mut [u32],
    work: &mut [u32],
) -> (u32, u32)
    requires { (Fair width) × ((count ≤ length work.old) × (Every (λ row. row < 2 ^ width) (take count work.old))) }
    ensures answer { result ≡ told (length list.old) (plans_of (take count work.old) width) }
    ensures after { list.new ≡ listed (length list.old) (plans_of (take count work.old) width) }
    ensures cleared { work.new ≡ replicate (length work.old) 0 }
{
    let answer = cover_rows(width, &work[..count], list);
    clear(work);
    answer
}

// Lists the minimal covers of rows that the cover call does not refuse.
fn cover_rows(width: u32, rows: &[u32], list: &mut [u32]) -> (u32, u32)
    requires { (Fair width) × (Every (λ row. row < 2 ^ width) rows.now) }
    ensures answer { result ≡ told (length list.old) (plans_of rows.now width) }
    ensures after { list.new ≡ listed (length list.old) (plans_of rows.now width) }
{
    cover(width, rows, list).unwrap()
}
