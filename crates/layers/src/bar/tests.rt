// The lowest test outside a width, as a bar's check asks for it, and a bar's tests, on small examples.

use crate::bar::bars;
use crate::faults::BarFault;
use sets::lowest_above;

#[test]
fn a_bar_within_the_width_passes(rt: HostRuntime) {
    assert_eq!(rt; lowest_above(0, 5).map(BarFault::Outside), None);
    assert_eq!(rt; lowest_above(31, 5).map(BarFault::Outside), None);
    assert_eq!(rt; lowest_above(16777215, 24).map(BarFault::Outside), None);
}

#[test]
fn a_bar_names_the_lowest_test_outside(rt: HostRuntime) {
    assert_eq!(rt;
        lowest_above(32, 5).map(BarFault::Outside),
        Some(BarFault::Outside(6))
    );
    assert_eq!(rt;
        lowest_above(2147483648 + 64 + 1, 5).map(BarFault::Outside),
        Some(BarFault::Outside(7))
    );
    assert_eq!(rt;
        lowest_above(2147483648, 24).map(BarFault::Outside),
        Some(BarFault::Outside(32))
    );
}

#[test]
fn a_bar_has_its_tests_within_the_width(rt: HostRuntime) {
    assert_eq!(rt; bars(3, 5, 1), true);
    assert_eq!(rt; bars(3, 5, 2), false);
    assert_eq!(rt; bars(3, 13, 4), false);
    assert_eq!(rt; bars(3, 5, 0), false);
}
