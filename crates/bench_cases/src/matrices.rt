// The matrix, the rows of one record and the core, over a slot book of codes.

use books::book::Book;
use books::shown::Shown;
use matrix::lonely::core;
use matrix::rows::{matrix, rows_of};
use slot_book::memory::SlotBook;
use slot_book::slots::Slot;
use std::process::Abort;

const EMPTY: Slot = Slot { tag: 0, part: 0 };

// One record of part 1 and three of part 2, into any empty book of width 5.
fn enters_four<B: Book<Reading = u8>>(rt: &impl Abort, book: &mut B) {
    assert_eq!(rt; book.enter(30, 2, &[255, 0, 1, 1, 0]), Ok(()));
    assert_eq!(rt; book.enter(10, 1, &[0, 0, 0, 0, 0]), Ok(()));
    assert_eq!(rt; book.enter(40, 2, &[0, 1, 1, 0, 1]), Ok(()));
    assert_eq!(rt; book.enter(20, 2, &[1, 1, 255, 0, 0]), Ok(()));
}

fn has_three_rows<B: Book<Reading = u8> + Drop>(rt: &impl Abort, mut book: B) {
    enters_four(rt, &mut book);
    let mut rows = [9u32; 4];
    assert_eq!(rt; matrix(&book, &mut rows), 3);
    assert_eq!(rt; rows, [3, 12, 22, 9]);
    let mut few = [9u32; 2];
    assert_eq!(rt; matrix(&book, &mut few), 3);
    assert_eq!(rt; few, [3, 12]);
}

fn has_rows_of_one<B: Book<Reading = u8> + Drop>(rt: &impl Abort, mut book: B) {
    enters_four(rt, &mut book);
    let mut rows = [9u32; 2];
    assert_eq!(rt; rows_of(&book, 30, &mut rows), Some(1));
    assert_eq!(rt; rows, [12, 9]);
    assert_eq!(rt; rows_of(&book, 10, &mut rows), Some(3));
    assert_eq!(rt; rows, [3, 12]);
    assert_eq!(rt; rows_of(&book, 99, &mut rows), None);
    assert_eq!(rt; rows, [3, 12]);
}

fn has_its_core<B: Book<Reading = u8> + Drop>(rt: &impl Abort, mut book: B) {
    assert_eq!(rt; core(&book), 0);
    enters_four(rt, &mut book);
    assert_eq!(rt; core(&book), 0);
    assert_eq!(rt; book.amend(30, 4, 0), Ok(()));
    assert_eq!(rt; core(&book), 4);
}

#[test]
fn the_matrix_of_four_records_has_three_rows(rt: HostRuntime) {
    let mut slots = [EMPTY; 4];
    let mut cells = [0u8; 20];
    has_three_rows(&rt, SlotBook::new(&mut slots, &mut cells, 5));
}

#[test]
fn one_record_has_rows_with_lower_tags_too(rt: HostRuntime) {
    let mut slots = [EMPTY; 4];
    let mut cells = [0u8; 20];
    has_rows_of_one(&rt, SlotBook::new(&mut slots, &mut cells, 5));
}

#[test]
fn a_test_that_is_left_alone_is_in_the_core(rt: HostRuntime) {
    let mut slots = [EMPTY; 4];
    let mut cells = [0u8; 20];
    has_its_core(&rt, SlotBook::new(&mut slots, &mut cells, 5));
}
