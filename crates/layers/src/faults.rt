// The faults that the checks of the layers find.

ghost use Rattle.layers.specs.Lines.{assembly_line, bar_line};
ghost use Rattle.std.specs.Prelude.{◌≡◌};

use refusals::{Origin, Refusal};

// A set of tests that no bar can have over this book.
#[derive(Clone, Copy, PartialEq, Eq, Debug)]
pub enum BarFault {
    // the lowest test of the set that is outside the width
    Outside(u32),
}

// A table that no assembly can have.
#[derive(Clone, Copy, PartialEq, Eq, Debug)]
pub enum AssemblyFault {
    // the lowest part whose entry is no part, or a part that is not its own assembly
    Wrong(u8),
}

// The fault's line of the refusal table.
impl From<BarFault> for Refusal {
    ghost from_gives = { λ fault r. r ≡ bar_line fault };

    fn from(fault: BarFault) -> Refusal {
        let BarFault::Outside(test) = fault;
        Refusal::at(8, Origin::Bar, test.into())
    }
}

// The fault's line of the refusal table.
impl From<AssemblyFault> for Refusal {
    ghost from_gives = { λ fault r. r ≡ assembly_line fault };

    fn from(fault: AssemblyFault) -> Refusal {
        let AssemblyFault::Wrong(part) = fault;
        Refusal::at(15, Origin::Assembly, part.into())
    }
}
