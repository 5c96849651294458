// The faults of the cover call.

ghost use Rattle.covers.specs.Answers.{cover_line};
ghost use Rattle.std.specs.Prelude.{◌≡◌};

use refusals::{Origin, Refusal};

#[derive(Clone, Copy, PartialEq, Eq, Debug)]
pub enum CoverFault {
    // the width is not 1 to 24
    Width,
    // this row, counted from 0, is the first with a test above the width
    Row(u64),
}

// The fault's line of the refusal table.
impl From<CoverFault> for Refusal {
    ghost from_gives = { λ fault r. r ≡ cover_line fault };

    fn from(fault: CoverFault) -> Refusal {
        match fault {
            CoverFault::Width => Refusal::at(1, Origin::Cover, 0),
            CoverFault::Row(row) => Refusal::at(18, Origin::Cover, row),
        }
    }
}
