// Benches over slots, pages and piles: what each call answers and leaves, and whole histories.

use bench::bench::Bench;
use bench::faults::BenchFault;
use bench::histories::{Call, replay, replay_two};
use bench::single::plans_for;
use bench::whole::plans_of;
use books::book::Book;
use books::faults::BookFault;
use books::shown::Shown;
use layers::assembly::Assembly;
use layers::bar::Bar;
use page_book::book::PageBook;
use slot_book::memory::SlotBook;
use slot_book::slots::Slot;
use std::array::from_fn;
use std::process::Abort;

const EMPTY: Slot = Slot { tag: 0, part: 0 };

// work memory with something in it
const DIRTY: [u32; 2016] = [7; 2016];

// One record of part 1 and three of part 2, into any empty book of width 5.
fn enter_four<B: Book<Reading = u8>>(rt: &impl Abort, book: &mut B) {
    assert_eq!(rt; book.enter(10, 1, &[0, 0, 0, 0, 0]), Ok(()));
    assert_eq!(rt; book.enter(20, 2, &[1, 1, 255, 0, 0]), Ok(()));
    assert_eq!(rt; book.enter(30, 2, &[255, 0, 1, 1, 0]), Ok(()));
    assert_eq!(rt; book.enter(40, 2, &[0, 1, 1, 0, 1]), Ok(()));
}

fn shelves_and_changes<B: Book<Reading = u8> + Drop>(rt: &impl Abort, mut book: B) {
    enter_four(rt, &mut book);
    let mut bench = Bench::new(book);
    let mut list = [9u32; 6];
    let mut work = DIRTY;
    assert_eq!(rt; bench.counted(), (0, 0));
    assert_eq!(rt; bench.shelve(&mut list, &mut work), Ok((4, 0)));
    assert_eq!(rt; list, [5, 6, 10, 25, 0, 0]);
    assert!(rt; work == [0u32; 2016]);
    assert_eq!(rt; bench.amend(20, 1, 255, &mut list, &mut work), Ok((2, 0)));
    assert_eq!(rt; list, [6, 10, 0, 0, 0, 0]);
    let unknown = Err(BenchFault::InBook(BookFault::NotHeld(99)));
    assert_eq!(rt; bench.withdraw(99, &mut list, &mut work), unknown);
    assert_eq!(rt; bench.counted(), (2, 0));
    assert_eq!(rt; bench.amend(20, 1, 1, &mut list, &mut work), Ok((4, 0)));
    assert_eq!(rt; bench.withdraw(30, &mut list, &mut work), Ok((3, 0)));
    assert_eq!(rt; list, [2, 5, 17, 0, 0, 0]);
    assert_eq!(rt;
        bench.shelve(&mut list, &mut work[0..2015]),
        Err(BenchFault::Work)
    );
    assert_eq!(rt; bench.book().held(), 3);
}

#[test]
fn a_bench_lists_again_after_every_change(rt: HostRuntime) {
    let mut slots = [EMPTY; 5];
    let mut cells = [0u8; 25];
    shelves_and_changes(&rt, SlotBook::new(&mut slots, &mut cells, 5));
}

fn is_over<B: Book<Reading = u8> + Drop>(rt: &impl Abort, mut book: B) {
    enter_four(rt, &mut book);
    let mut bench = Bench::new(book);
    let mut list = [9u32; 3];
    let mut work = DIRTY;
    assert_eq!(rt; bench.shelve(&mut list, &mut work), Ok((4, 1)));
    assert_eq!(rt; list, [0, 0, 0]);
    assert_eq!(rt; bench.counted(), (4, 1));
}

#[test]
fn a_list_that_is_too_short_is_zeros(rt: HostRuntime) {
    let mut slots = [EMPTY; 5];
    let mut cells = [0u8; 25];
    is_over(&rt, SlotBook::new(&mut slots, &mut cells, 5));
}

fn lists_without_a_bench<B: Book<Reading = u8> + Drop>(rt: &impl Abort, mut book: B) {
    enter_four(rt, &mut book);
    let mut list = [9u32; 6];
    let mut work = DIRTY;
    assert_eq!(rt;
        plans_of(&book, &mut list, &mut work[0..2015]),
        Err(BenchFault::Work)
    );
    assert_eq!(rt; list, [9, 9, 9, 9, 9, 9]);
    assert_eq!(rt; plans_of(&book, &mut list, &mut work), Ok((4, 0)));
    assert_eq!(rt; list, [5, 6, 10, 25, 0, 0]);
    assert!(rt; work == [0u32; 2016]);
}

#[test]
fn a_book_is_listed_without_a_bench(rt: HostRuntime) {
    let mut page = [0u8; 160];
    lists_without_a_bench(&rt, PageBook::new(&mut page, 5));
}

fn lists_under_a_bar<B: Book<Reading = u8> + Drop>(rt: &impl Abort, mut book: B) {
    enter_four(rt, &mut book);
    let mut bench = Bench::new(Bar::new(book, 2));
    let mut list = [9u32; 3];
    let mut work = DIRTY;
    assert_eq!(rt; bench.shelve(&mut list, &mut work), Ok((2, 0)));
    assert_eq!(rt; list, [5, 25, 0]);
}

#[test]
fn a_barred_test_is_in_no_plan(rt: HostRuntime) {
    let mut slots = [EMPTY; 5];
    let mut cells = [0u8; 25];
    lists_under_a_bar(&rt, SlotBook::new(&mut slots, &mut cells, 5));
}

// each part its own assembly, but part 3, which belongs to part 1
fn three_in_one() -> [u8; 250] {
    let mut table = from_fn(|place| place as u8 + 1);
    table[2] = 1;
    table
}

fn has_no_plan<B: Book<Reading = u8> + Drop>(rt: &impl Abort, mut book: B) {
    enter_four(rt, &mut book);
    let mut bench = Bench::new(book);
    let mut list = [9u32; 4];
    let mut work = DIRTY;
    let clash = [0u8; 5];
    assert_eq!(rt;
        bench.enter(50, 3, &clash, &mut list, &mut work),
        Ok((0, 0))
    );
    assert_eq!(rt; list, [0, 0, 0, 0]);
}

fn has_four_again<B: Book<Reading = u8> + Drop>(rt: &impl Abort, mut book: B) {
    enter_four(rt, &mut book);
    assert_eq!(rt; book.enter(50, 3, &[0, 0, 0, 0, 0]), Ok(()));
    let mut bench = Bench::new(Assembly::new(book, three_in_one()));
    let mut list = [9u32; 4];
    let mut work = DIRTY;
    assert_eq!(rt; bench.shelve(&mut list, &mut work), Ok((4, 0)));
    assert_eq!(rt; list, [5, 6, 10, 25]);
}

#[test]
fn two_records_that_nothing_tells_apart_leave_no_plan(rt: HostRuntime) {
    let mut slots = [EMPTY; 5];
    let mut cells = [0u8; 25];
    has_no_plan(&rt, SlotBook::new(&mut slots, &mut cells, 5));
    has_four_again(&rt, SlotBook::new(&mut slots, &mut cells, 5));
}

fn plans_for_one<B: Book<Reading = u8> + Drop>(rt: &impl Abort, mut book: B) {
    enter_four(rt, &mut book);
    let mut list = [9u32; 3];
    let mut work = DIRTY;
    assert_eq!(rt; plans_for(&book, 20, &mut list, &mut work), Ok((2, 0)));
    assert_eq!(rt; list, [1, 2, 0]);
    let unknown = Err(BenchFault::InBook(BookFault::NotHeld(99)));
    assert_eq!(rt; plans_for(&book, 99, &mut list, &mut work), unknown);
    let none = Err(BenchFault::InBook(BookFault::NoTag));
    assert_eq!(rt; plans_for(&book, 0, &mut list, &mut work), none);
    let short = Err(BenchFault::Work);
    assert_eq!(rt; plans_for(&book, 0, &mut list, &mut work[0..9]), short);
    assert_eq!(rt; list, [1, 2, 0]);
}

#[test]
fn one_record_has_its_own_plans(rt: HostRuntime) {
    let mut slots = [EMPTY; 5];
    let mut cells = [0u8; 25];
    plans_for_one(&rt, SlotBook::new(&mut slots, &mut cells, 5));
}

fn replays<B: Book<Reading = u8> + Drop>(rt: &impl Abort, book: B) {
    let calls = [
        Call::Shelve { work: 2015 },
        Call::Enter {
            work: 2016,
            tag: 10,
            part: 1,
            readings: &[0, 0],
        },
        Call::Enter {
            work: 9999,
            tag: 20,
            part: 2,
            readings: &[1, 1],
        },
        Call::Enter {
            work: 2016,
            tag: 20,
            part: 2,
            readings: &[1, 1],
        },
        Call::Amend {
            work: 2016,
            tag: 20,
            test: 2,
            reading: 0,
        },
        Call::Withdraw {
            work: 2016,
            tag: 10,
        },
    ];
    let mut list = [9u32; 3];
    let mut work = DIRTY;
    let mut told = [9u32; 5];
    let bench = replay(book, &calls, &mut list, &mut work, &mut told);
    assert_eq!(rt; told, [14, 0, 0, 11, 0]);
    assert_eq!(rt; list, [1, 0, 0]);
    assert_eq!(rt; bench.counted(), (1, 0));
}

#[test]
fn a_history_is_run_as_far_as_there_are_places(rt: HostRuntime) {
    let mut slots = [EMPTY; 5];
    let mut cells = [0u8; 10];
    replays(&rt, SlotBook::new(&mut slots, &mut cells, 2));
}

fn agree<B: Book<Reading = u8> + Drop, C: Book<Reading = u8> + Drop>(
    rt: &impl Abort,
    one: B,
    two: C,
) {
    let calls = [
        Call::Enter {
            work: 2016,
            tag: 10,
            part: 1,
            readings: &[0, 0],
        },
        Call::Enter {
            work: 2016,
            tag: 20,
            part: 2,
            readings: &[1, 1],
        },
    ];
    let others = [
        Call::Enter {
            work: 2016,
            tag: 7,
            part: 2,
            readings: &[1, 1],
        },
        Call::Enter {
            work: 2016,
            tag: 8,
            part: 1,
            readings: &[0, 0],
        },
    ];
    let mut list = [9u32; 4];
    let mut list2 = [9u32; 2];
    let mut work = DIRTY;
    let mut work2 = DIRTY;
    let mut told = [9u32; 2];
    let mut told2 = [9u32; 2];
    let (bench, bench2) = replay_two(
        one, &calls, &mut list, &mut work, &mut told, two, &others, &mut list2, &mut work2,
        &mut told2,
    );
    assert_eq!(rt; told, [0, 0]);
    assert_eq!(rt; told2, [0, 0]);
    assert_eq!(rt; bench.counted(), bench2.counted());
    assert_eq!(rt; list, [1, 2, 0, 0]);
    assert_eq!(rt; list2, [1, 2]);
}

#[test]
fn slots_and_a_page_alike_list_the_same_plans(rt: HostRuntime) {
    let mut slots = [EMPTY; 5];
    let mut cells = [0u8; 10];
    let mut page = [0u8; 64];
    agree(
        &rt,
        SlotBook::new(&mut slots, &mut cells, 2),
        PageBook::new(&mut page, 2),
    );
}
