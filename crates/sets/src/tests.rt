// Sets of tests on examples.

use crate::{clear, has, lowest_above, meets, put, single};

#[test]
fn sets_meet_in_a_common_test(rt: HostRuntime) {
    assert!(rt; meets(5, 6));
    assert!(rt; !meets(5, 10));
    assert!(rt; !meets(0, 4294967295));
}

#[test]
fn only_a_single_test_is_single(rt: HostRuntime) {
    assert_eq!(rt; single(8), 8);
    assert_eq!(rt; single(2147483648), 2147483648);
    assert_eq!(rt; single(6), 0);
    assert_eq!(rt; single(0), 0);
}

#[test]
fn a_set_has_its_tests_by_their_numbers(rt: HostRuntime) {
    assert!(rt; has(5, 1) && !has(5, 2) && has(5, 3));
    assert!(rt; has(2147483648, 32));
    assert!(rt; !has(4294967295, 0) && !has(4294967295, 33));
}

#[test]
fn the_lowest_test_above_a_width(rt: HostRuntime) {
    assert_eq!(rt; lowest_above(5, 0), Some(1));
    assert_eq!(rt; lowest_above(5, 1), Some(3));
    assert_eq!(rt; lowest_above(5, 3), None);
    assert_eq!(rt; lowest_above(2147483648 + 64, 6), Some(7));
    assert_eq!(rt; lowest_above(4294967295, 31), Some(32));
    assert_eq!(rt; lowest_above(4294967295, 32), None);
}

#[test]
fn clear_empties_every_place(rt: HostRuntime) {
    let mut list = [5u32, 6, 0, 25];
    clear(&mut list);
    assert_eq!(rt; list, [0, 0, 0, 0]);
}

#[test]
fn a_set_is_put_where_there_is_a_place(rt: HostRuntime) {
    let mut list = [5u32, 6];
    put(&mut list, 1, 7);
    put(&mut list, 2, 8);
    assert_eq!(rt; list, [5, 7]);
}
