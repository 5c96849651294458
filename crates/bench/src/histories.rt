// Histories: any list of calls, run on a new bench.

ghost use Rattle.std.specs.Prelude.{◌≡◌, min, length};
ghost use Rattle.bench.specs.Histories.{Replayed, StepTo, asked, call_with, number_in, run, wanted};
ghost use Rattle.bench.specs.Promise.{SamePlans};
ghost use Rattle.bench.specs.Steps.{Stepped};

use crate::bench::Bench;
use crate::faults::BenchFault;
use books::book::Book;
use books::shown::Shown;
use readings::kinds::Reading;
use refusals::Refusal;

// A call of a bench, and how many places of the work memory it is lent.
#[derive(Drop)]
pub enum Call<'a, R> {
    Shelve {
        work: usize,
    },
    Enter {
        work: usize,
        tag: u16,
        part: u8,
        readings: &'a [R],
    },
    Withdraw {
        work: usize,
        tag: u16,
    },
    Amend {
        work: usize,
        tag: u16,
        test: u32,
        reading: R,
    },
}

// The number that a call is answered with, 0 where it is accepted: the user's memory for them has numbers, and the ledger tells them so.
fn number_of(res: Result<(u32, u32), BenchFault>) -> u32
    ensures { result ≡ number_in res }
{
    match res {
        Ok(_) => 0,
        Err(fault) => Refusal::from(fault).number,
    }
}

fn wanted_by<R>(call: &Call<'_, R>) -> usize
    ensures { result ≡ wanted call.now }
{
    match call {
        Call::Shelve { work }
        | Call::Enter { work, .. }
        | Call::Withdraw { work, .. }
        | Call::Amend { work, .. } => *work,
    }
}

// One call, lent all of this work memory.
fn step<B: Book>(
    bench: &mut Bench<B>,
    call: &Call<'_, B::Reading>,
    list: &mut [u32],
    work: &mut [u32],
) -> Result<(u32, u32), BenchFault>
    ensures { Stepped B.Reading.Reading.kind B.Shown.means B.Book.rewrites (call_with (length work.old) call.now) bench.old bench.new list.old list.new work.old work.new result }
{
    match call {
        Call::Shelve { .. } => bench.shelve(list, work),
        Call::Enter {
            tag,
            part,
            readings,
            ..
        } => bench.enter(*tag, *part, readings, list, work),
        Call::Withdraw { tag, .. } => bench.withdraw(*tag, list, work),
        Call::Amend {
            tag,
            test,
            reading,
            ..
        } => bench.amend(*tag, *test, *reading, list, work),
    }
}

// One call, lent as many places of the work memory as it asks for, or all; answers its number.
fn step_lent<B: Book>(
    bench: &mut Bench<B>,
    call: &Call<'_, B::Reading>,
    list: &mut [u32],
    work: &mut [u32],
) -> u32
    ensures { StepTo B.Reading.Reading.kind B.Shown.means B.Book.rewrites (asked (length work.old) call.now) result (record { bench = bench.entry.now; list = list.old; work = work.old }) (record { bench = bench.exit.now; list = list.new; work = work.new }) }
{
    let lent = wanted_by(call).min(work.len());
    number_of(step(bench, call, list, &mut work[..lent]))
}

// Runs the calls one after another on a new bench of this book, as many as there are places for their numbers; answers the bench.
pub fn replay<B: Book>(
    book: B,
    calls: &[Call<'_, B::Reading>],
    list: &mut [u32],
    work: &mut [u32],
    told: &mut [u32],
) -> Bench<B>
    ensures { Replayed B.Reading.Reading.kind B.Shown.means B.Book.rewrites book (run calls.now work.old told.old) list.old work.old told.old result list.new work.new told.new }
{
    replay_on(book, calls, list, work, told)
}

// Apart from the call above so that a wrong call there is refused by a fact, and not by this proof.
fn replay_on<B: Book>(
    book: B,
    calls: &[Call<'_, B::Reading>],
    list: &mut [u32],
    work: &mut [u32],
    told: &mut [u32],
) -> Bench<B>
    ensures { Replayed B.Reading.Reading.kind B.Shown.means B.Book.rewrites book (run calls.now work.old told.old) list.old work.old told.old result list.new work.new told.new }
{
    let mut bench = Bench::new(book);
    let count = calls.len().min(told.len());
    // by an index: what is written through `iter_mut` under a `zip` is not known to a proof after the loop
    for (i, call) in calls[..count].iter().enumerate() {
        told[i] = step_lent(&mut bench, call, list, work);
    }
    bench
}

// Runs two lists of calls on new benches of two books with one kind of reading; answers both benches. Ten parameters, five
// for each: all that is lent is the caller's own, and in a struct would be known after the call by ghost names alone.
pub fn replay_two<B: Book, C: Book<Reading = B::Reading>>(
    book: B,
    calls: &[Call<'_, B::Reading>],
    list: &mut [u32],
    work: &mut [u32],
    told: &mut [u32],
    book2: C,
    calls2: &[Call<'_, B::Reading>],
    list2: &mut [u32],
    work2: &mut [u32],
    told2: &mut [u32],
) -> (Bench<B>, Bench<C>)
    ensures one { Replayed B.Reading.Reading.kind B.Shown.means B.Book.rewrites book (run calls.now work.old told.old) list.old work.old told.old result.0 list.new work.new told.new }
    ensures two { Replayed B.Reading.Reading.kind C.Shown.means C.Book.rewrites book2 (run calls2.now work2.old told2.old) list2.old work2.old told2.old result.1 list2.new work2.new told2.new }
    ensures alike { SamePlans B.Reading.Reading.kind (B.Shown.means book) (run calls.now work.old told.old) result.0.count result.0.over list.new (C.Shown.means book2) (run calls2.now work2.old told2.old) result.1.count result.1.over list2.new }
{
    run_two(
        book, calls, list, work, told, book2, calls2, list2, work2, told2,
    )
}

// Apart from the call above so that a wrong call there is refused by a fact, and not by this proof.
fn run_two<B: Book, C: Book<Reading = B::Reading>>(
    book: B,
    calls: &[Call<'_, B::Reading>],
    list: &mut [u32],
    work: &mut [u32],
    told: &mut [u32],
    book2: C,
    calls2: &[Call<'_, B::Reading>],
    list2: &mut [u32],
    work2: &mut [u32],
    told2: &mut [u32],
) -> (Bench<B>, Bench<C>)
    ensures one { Replayed B.Reading.Reading.kind B.Shown.means B.Book.rewrites book (run calls.now work.old told.old) list.old work.old told.old result.0 list.new work.new told.new }
    ensures two { Replayed B.Reading.Reading.kind C.Shown.means C.Book.rewrites book2 (run calls2.now work2.old told2.old) list2.old work2.old told2.old result.1 list2.new work2.new told2.new }
    ensures alike { SamePlans B.Reading.Reading.kind (B.Shown.means book) (run calls.now work.old told.old) result.0.count result.0.over list.new (C.Shown.means book2) (run calls2.now work2.old told2.old) result.1.count result.1.over list2.new }
{
    let one = replay(book, calls, list, work, told);
    let two = replay(book2, calls2, list2, work2, told2);
    (one, two)
}
