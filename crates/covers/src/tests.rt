// The cover call and the core on small matrices.

use crate::faults::CoverFault;
use crate::listing::cover;
use crate::lonely::core;

#[test]
fn lists_covers_rising_with_zeros_after(rt: HostRuntime) {
    let mut list = [9u32; 5];
    assert_eq!(rt; cover(5, &[5, 6, 10, 25], &mut list), Ok((3, 0)));
    assert_eq!(rt; list, [3, 12, 22, 0, 0]);
}

#[test]
fn says_over_and_leaves_zeros(rt: HostRuntime) {
    let mut list = [9u32; 2];
    assert_eq!(rt; cover(5, &[5, 6, 10, 25], &mut list), Ok((3, 1)));
    assert_eq!(rt; list, [0, 0]);
}

#[test]
fn without_rows_only_the_empty_set_and_with_an_empty_row_none(rt: HostRuntime) {
    let mut list = [9u32; 2];
    assert_eq!(rt; cover(24, &[], &mut list), Ok((1, 0)));
    assert_eq!(rt; list, [0, 0]);
    assert_eq!(rt; cover(24, &[3, 0], &mut list), Ok((0, 0)));
    assert_eq!(rt; list, [0, 0]);
    assert_eq!(rt; cover(1, &[], &mut []), Ok((1, 1)));
}

#[test]
fn refuses_width_then_row_and_keeps_the_list(rt: HostRuntime) {
    let mut list = [9u32; 2];
    assert_eq!(rt; cover(0, &[4], &mut list), Err(CoverFault::Width));
    assert_eq!(rt; cover(25, &[], &mut list), Err(CoverFault::Width));
    assert_eq!(rt; cover(2, &[3, 4, 5], &mut list), Err(CoverFault::Row(1)));
    assert_eq!(rt; list, [9, 9]);
}

#[test]
fn core_is_what_stands_alone(rt: HostRuntime) {
    assert_eq!(rt; core(&[6, 4, 17, 16]), 20);
    assert_eq!(rt; core(&[]), 0);
    assert_eq!(rt; core(&[2147483648, 3]), 2147483648);
}
