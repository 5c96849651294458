// The faults of a bench: its own, and the book's, carried whole.

ghost use Rattle.bench.specs.Lines.{bench_line};
ghost use Rattle.bench.specs.declared.faults.BenchFault.TheVariants.{InBook};
ghost use Rattle.std.specs.Prelude.{◌≡◌};

use books::faults::BookFault;
use refusals::{Origin, Refusal};

// A call that a bench refuses.
#[derive(Clone, Copy, PartialEq, Eq, Debug)]
pub enum BenchFault {
    // the work memory has fewer than 2,016 places
    Work,
    // the book refuses
    InBook(BookFault),
}

// The fault's line of the refusal table.
impl From<BenchFault> for Refusal {
    ghost from_gives = { λ fault r. r ≡ bench_line fault };

    fn from(fault: BenchFault) -> Refusal {
        match fault {
            BenchFault::Work => Refusal::at(14, Origin::Bench, 0),
            BenchFault::InBook(fault) => fault.into(),
        }
    }
}

// A book's fault goes up whole, and with it a page's.
impl From<BookFault> for BenchFault {
    ghost from_gives = { λ fault r. r ≡ InBook fault };

    fn from(fault: BookFault) -> BenchFault {
        BenchFault::InBook(fault)
    }
}
