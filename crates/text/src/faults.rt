// The faults of a line of text, each with its number, origin and place.

ghost use Rattle.std.specs.Prelude.{◌≡◌};
ghost use Rattle.text.specs.Refused.{text_line};

use refusals::{Origin, Refusal};

// A line that is not written.
#[derive(Clone, Copy, PartialEq, Eq, Debug)]
pub enum TextFault {
    // the plan has tests above 24, of which this is the lowest
    Outside { test: u32 },
    // the buffer has fewer than 64 bytes
    Room,
}

// The fault's line of the refusal table.
impl From<TextFault> for Refusal {
    ghost from_gives = { λ fault r. r ≡ text_line fault };

    fn from(fault: TextFault) -> Refusal {
        match fault {
            TextFault::Outside { test } => Refusal::at(8, Origin::Text, test.into()),
            TextFault::Room => Refusal::at(16, Origin::Text, 0),
        }
    }
}
