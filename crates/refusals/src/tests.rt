// What makes two refusals the same.

use crate::{Origin, Place, Refusal};

#[test]
fn refusals_differ_by_number_origin_and_place(rt: HostRuntime) {
    let refusal = Refusal {
        number: 8,
        origin: Origin::Bar,
        place: Place::At(3),
    };
    assert_eq!(rt; refusal, refusal);
    assert_ne!(rt;
        refusal,
        Refusal {
            number: 10,
            ..refusal
        }
    );
    assert_ne!(rt;
        refusal,
        Refusal {
            origin: Origin::Book,
            ..refusal
        }
    );
    assert_ne!(rt;
        refusal,
        Refusal {
            place: Place::At(4),
            ..refusal
        }
    );
}

#[test]
fn a_place_in_a_page_is_no_number(rt: HostRuntime) {
    assert_ne!(rt; Place::InPage { record: 0, byte: 0 }, Place::At(0));
    assert_ne!(rt;
        Place::InPage { record: 1, byte: 2 },
        Place::InPage { record: 2, byte: 1 }
    );
}
