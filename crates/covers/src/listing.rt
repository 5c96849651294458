// The cover call: all minimal covers of a matrix into the caller's list.

ghost use Rattle.std.specs.Prelude.{◌≡◌, ◌≤◌, length, MatchResult};
ghost use Rattle.covers.specs.Answers.{cover_fault, listed, told};
ghost use Rattle.covers.specs.Plans.{plans_of};
ghost use Rattle.covers.specs.Theorems.{Opened, RefusedWith};
ghost use Rattle.refusals.specs.Faults.{answered, leaves, passed};

use crate::dividing::divide;
use crate::faults::CoverFault;
use sets::{EMPTY, clear};

const WIDEST: u32 = 24;

// Lists all plans of the matrix in `rows`: answers their number, and 1 for over where they are more than the places, else 0.
// The list then holds them, rising, with zeros after; where it is over, zeros alone; where it refuses, what it held.
// Over is a number and no flag: a rule of the project, whose user takes two numbers for an answer.
#[tactic(auto, using(crate::proofs::Calls::fair_by, crate::proofs::Calls::refused_by))]
pub fn cover(width: u32, rows: &[u32], list: &mut [u32]) -> Result<(u32, u32), CoverFault>
    ensures answer { result ≡ answered (cover_fault width rows.now) (told (length list.old) (plans_of rows.now width)) }
    ensures after { list.new ≡ leaves (cover_fault width rows.now) list.old (listed (length list.old) (plans_of rows.now width)) }
    ensures plans { MatchResult result (λ _. Opened width rows.now) (RefusedWith width rows.now) }
{
    check(width, rows)?;
    Ok(list_plans(width, rows, list))
}

// Refuses a width that is not 1 to 24, else the first row with a test above the width.
#[tactic(auto, using(crate::proofs::Calls::fault_rows, crate::proofs::Calls::fault_width, crate::proofs::Calls::wide_here, crate::proofs::Calls::wide_more, crate::proofs::Calls::wide_end, crate::proofs::Calls::limit_is))]
fn check(width: u32, rows: &[u32]) -> Result<(), CoverFault>
    ensures { result ≡ passed (cover_fault width rows.now) }
{
    if !(1..=WIDEST).contains(&width) {
        return Err(CoverFault::Width);
    }
    let limit = 1u32 << width;
    for (i, row) in rows.iter().enumerate() {
        if *row >= limit {
            // by `as`: a `try_from` would have to be unwrapped, no plainer
            return Err(CoverFault::Row(i as u64));
        }
    }
    Ok(())
}

// Fills the list with zeros, then with the plans, and with zeros again where the plans are more than the places.
fn list_plans(width: u32, rows: &[u32], list: &mut [u32]) -> (u32, u32)
    requires { width ≤ 24 }
    ensures answer { result ≡ told (length list.old) (plans_of rows.now width) }
    ensures after { list.new ≡ listed (length list.old) (plans_of rows.now width) }
{
    clear(list);
    let undecided = (1u32 << width) - 1;
    let count = divide(rows, EMPTY, undecided, list, 0);
    if count as usize > list.len() {
        clear(list);
        return (count, 1);
    }
    (count, 0)
}
