// The refusal table's lines of the faults, with origin and place.

use crate::faults::{BookFault, PageFault};
use refusals::{Origin, Place, Refusal};
use std::process::Abort;

fn line_is(rt: &impl Abort, fault: BookFault, number: u32, origin: Origin, place: Place) {
    let refusal = Refusal::from(fault);
    assert_eq!(rt; refusal.number, number);
    assert_eq!(rt; refusal.origin, origin);
    assert_eq!(rt; refusal.place, place);
}

#[test]
fn a_page_fault_goes_up_whole(rt: HostRuntime) {
    let layout = BookFault::from(PageFault::Layout { record: 2, byte: 3 });
    line_is(
        &rt,
        layout,
        3,
        Origin::Page,
        Place::InPage { record: 2, byte: 3 },
    );
    let twice = BookFault::from(PageFault::Twice { record: 5 });
    line_is(
        &rt,
        twice,
        4,
        Origin::Page,
        Place::InPage { record: 5, byte: 0 },
    );
}

#[test]
fn closed_parts_and_tests_name_their_layer(rt: HostRuntime) {
    line_is(
        &rt,
        BookFault::ClosedPart(3),
        9,
        Origin::Assembly,
        Place::At(3),
    );
    line_is(&rt, BookFault::ClosedTest(2), 10, Origin::Bar, Place::At(2));
    line_is(&rt, BookFault::NotHeld(99), 13, Origin::Book, Place::At(99));
}
