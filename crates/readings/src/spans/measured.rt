// Spans as readings: made, asked for their ends, and compared.

ghost use Rattle.readings.specs.Spans.{Made, Shares, spans};
ghost use Rattle.std.specs.Prelude.{◌≡◌, true, ◌↔◌};
ghost use Rattle.readings.specs.SpanLaws.{spans_lawful};

use crate::faults::SpanFault;
use crate::kinds::Reading;
use crate::spans::Span;

const LAST: u16 = 65535;

impl Span {
    // The span from low to high; refused where low is above high.
    pub fn new(low: u16, high: u16) -> Result<Span, SpanFault>
        ensures { Made low high result }
    {
        if low > high {
            return Err(SpanFault::Backward);
        }
        Ok(Span { low, high })
    }

    // Its two ends, low first.
    pub fn ends(&self) -> (u16, u16)
        ensures { result ≡ (self.now.low, self.now.high) }
    {
        (self.low, self.high)
    }
}

impl Reading for Span {
    ghost kind = { spans };

    ghost lawful = { spans_lawful };

    fn blank() -> Span {
        Span { low: 0, high: LAST }
    }

    fn is_blank(&self) -> bool {
        self.low == 0 && self.high == LAST
    }

    #[tactic(auto, using(crate::specs::SpanLaws::sharing))]
    fn agrees(&self, other: &Span) -> bool
        ensures answer { result ≡ spans.agrees self.now other.now }
        ensures shares { (spans.agrees self.now other.now ≡ true) ↔ Shares self.now other.now }
    {
        self.low <= other.high && other.low <= self.high
    }
}
