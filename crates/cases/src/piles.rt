// Piles of layers over a slot book of codes: what they show, and which refusal comes first.

use books::book::Book;
use books::faults::BookFault;
use books::shown::Shown;
use layers::assembly::Assembly;
use layers::bar::{Bar, check as bar_check};
use layers::faults::BarFault;
use slot_book::memory::SlotBook;
use slot_book::slots::Slot;
use std::array::from_fn;
use std::process::Abort;

const EMPTY: Slot = Slot { tag: 0, part: 0 };

// each part its own assembly, but part 3, which belongs to part 1
fn three_in_one() -> [u8; 250] {
    let mut table = from_fn(|place| place as u8 + 1);
    table[2] = 1;
    table
}

// A bar over an assembly over any book of codes that is empty, of width 5.
fn refuses_in_order<B: Book<Reading = u8> + Drop>(rt: &impl Abort, book: B) {
    let mut pile = Bar::new(Assembly::new(book, three_in_one()), 2);
    assert_eq!(rt; pile.enter(0, 3, &[0, 1, 0, 0, 0]), Err(BookFault::NoTag));
    assert_eq!(rt;
        pile.enter(7, 3, &[0, 1, 0, 0, 0]),
        Err(BookFault::ClosedPart(3))
    );
    assert_eq!(rt;
        pile.enter(7, 1, &[0, 1, 0, 0, 0]),
        Err(BookFault::ClosedTest(2))
    );
    assert_eq!(rt; pile.enter(7, 1, &[0, 255, 0, 0, 0]), Ok(()));
    assert_eq!(rt;
        pile.enter(7, 1, &[0, 255, 0, 0, 0]),
        Err(BookFault::Held(7))
    );
    assert_eq!(rt; pile.amend(7, 2, 1), Err(BookFault::ClosedTest(2)));
    assert_eq!(rt; pile.amend(9, 6, 1), Err(BookFault::Test(6)));
}

#[test]
fn the_table_orders_refusals_across_a_pile(rt: HostRuntime) {
    let mut slots = [EMPTY; 2];
    let mut cells = [0u8; 10];
    refuses_in_order(&rt, SlotBook::new(&mut slots, &mut cells, 5));
}

// An assembly over a bar of tests 2 and 4 over a book that holds tag 8.
fn shows_below<B: Book<Reading = u8> + Drop>(rt: &impl Abort, book: B) {
    let pile = Assembly::new(Bar::new(book, 10), three_in_one());
    assert_eq!(rt; pile.part(8), Some(1));
    assert_eq!(rt; pile.reading(8, 1), Some(4));
    assert_eq!(rt; pile.reading(8, 2), Some(255));
    assert_eq!(rt; pile.reading(8, 4), Some(255));
    assert!(rt; pile.closed_test(4) && !pile.closed_test(5));
    assert!(rt; pile.closed_part(3) && !pile.closed_part(1));
}

#[test]
fn layers_show_what_lies_below(rt: HostRuntime) {
    let mut slots = [EMPTY; 2];
    let mut cells = [0u8; 10];
    let mut book = SlotBook::new(&mut slots, &mut cells, 5);
    assert_eq!(rt; book.enter(8, 3, &[4, 7, 0, 2, 9]), Ok(()));
    shows_below(&rt, book);
}

// Two bars over a book of width 3 that holds tag 8.
fn two_bars<B: Book<Reading = u8> + Drop>(rt: &impl Abort, book: B) {
    let pile = Bar::new(Bar::new(book, 1), 4);
    assert_eq!(rt; pile.reading(8, 1), Some(255));
    assert_eq!(rt; pile.reading(8, 2), Some(7));
    assert_eq!(rt; pile.reading(8, 3), Some(255));
}

#[test]
fn two_bars_are_one(rt: HostRuntime) {
    let mut slots = [EMPTY; 1];
    let mut cells = [0u8; 3];
    let mut book = SlotBook::new(&mut slots, &mut cells, 3);
    assert_eq!(rt; book.enter(8, 3, &[4, 7, 5]), Ok(()));
    two_bars(&rt, book);
}

// What a bar's check says over a book of width 5.
fn bar_over_five<B: Book<Reading = u8> + Drop>(rt: &impl Abort, book: B) {
    assert_eq!(rt; bar_check(&book, 0), Ok(()));
    assert_eq!(rt; bar_check(&book, 31), Ok(()));
    assert_eq!(rt; bar_check(&book, 32), Err(BarFault::Outside(6)));
    assert_eq!(rt;
        bar_check(&book, 2147483648 + 64 + 1),
        Err(BarFault::Outside(7))
    );
}

// And over a book of width 24.
fn bar_over_24<B: Book<Reading = u8> + Drop>(rt: &impl Abort, book: B) {
    assert_eq!(rt; bar_check(&book, 16777215), Ok(()));
    assert_eq!(rt; bar_check(&book, 2147483648), Err(BarFault::Outside(32)));
}

#[test]
fn a_bar_is_checked_against_the_width_below(rt: HostRuntime) {
    let mut slots = [EMPTY; 1];
    let mut cells = [0u8; 24];
    bar_over_five(&rt, SlotBook::new(&mut slots, &mut cells[0..5], 5));
    bar_over_24(&rt, SlotBook::new(&mut slots, &mut cells, 24));
}
