// The core of a matrix: the tests that stand alone in some row.

ghost use Rattle.covers.specs.Plans.{core_of};
ghost use Rattle.covers.specs.Theorems.{Common};
ghost use Rattle.std.specs.Prelude.{◌≡◌};

use sets::{EMPTY, single};

// The set of tests that stand alone in some row; wherever there is a plan, the tests common to all plans.
#[tactic(auto, using(crate::proofs::Least::core_common, crate::proofs::Scans::core_more, crate::proofs::Scans::core_all))]
pub fn core(rows: &[u32]) -> u32
    ensures answer { result ≡ core_of rows.now }
    ensures common { Common rows.now (core_of rows.now) }
{
    let mut alone = EMPTY;
    for row in rows {
        alone |= single(*row);
    }
    alone
}
