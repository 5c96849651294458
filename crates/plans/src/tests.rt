// The plans of a small page, and of pages that are refused.

use crate::planning::plans_of;
use books::faults::{BookFault, PageFault};

// tag 10, part 1; tags 20, 30 and 40, part 2: five tests, some blank
const FOUR: [u8; 128] = [
    10, 0, 1, 0, 0, 0, 0, 0, 0, 255, 255, 255, 255, 255, 255, 255, 255, 255, 255, 255, 255, 255,
    255, 255, 255, 255, 255, 255, 0, 0, 0, 0, 20, 0, 2, 0, 1, 1, 255, 0, 0, 255, 255, 255, 255,
    255, 255, 255, 255, 255, 255, 255, 255, 255, 255, 255, 255, 255, 255, 255, 0, 0, 0, 0, 30, 0,
    2, 0, 255, 0, 1, 1, 0, 255, 255, 255, 255, 255, 255, 255, 255, 255, 255, 255, 255, 255, 255,
    255, 255, 255, 255, 255, 0, 0, 0, 0, 40, 0, 2, 0, 0, 1, 1, 0, 1, 255, 255, 255, 255, 255, 255,
    255, 255, 255, 255, 255, 255, 255, 255, 255, 255, 255, 255, 255, 0, 0, 0, 0,
];

#[test]
fn four_records_have_four_plans(rt: HostRuntime) {
    let mut list = [9u32; 6];
    assert_eq!(rt; plans_of(&FOUR, &mut list), Ok((4, 0)));
    assert_eq!(rt; list, [5, 6, 10, 25, 0, 0]);
}

#[test]
fn three_places_are_too_few(rt: HostRuntime) {
    let mut list = [9u32; 3];
    assert_eq!(rt; plans_of(&FOUR, &mut list), Ok((4, 1)));
    assert_eq!(rt; list, [0, 0, 0]);
}

#[test]
fn a_refused_page_leaves_the_list(rt: HostRuntime) {
    let mut list = [9u32; 2];
    assert_eq!(rt; plans_of(&FOUR[0..33], &mut list), Err(BookFault::Size));
    let cut = Err(BookFault::InPage(PageFault::Layout { record: 0, byte: 2 }));
    let mut page = FOUR;
    page[2] = 251;
    assert_eq!(rt; plans_of(&page, &mut list), cut);
    assert_eq!(rt; list, [9, 9]);
}
