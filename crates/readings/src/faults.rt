// The fault of a span.

ghost use Rattle.readings.specs.Faults.{span_line};
ghost use Rattle.std.specs.Prelude.{◌≡◌};

use refusals::{Origin, Refusal};

#[derive(Clone, Copy, PartialEq, Eq, Debug)]
pub enum SpanFault {
    // low is above high
    Backward,
}

// The fault's line of the refusal table.
impl From<SpanFault> for Refusal {
    ghost from_gives = { λ fault r. r ≡ span_line fault };

    fn from(fault: SpanFault) -> Refusal {
        match fault {
            SpanFault::Backward => Refusal::at(17, Origin::Span, 0),
        }
    }
}
