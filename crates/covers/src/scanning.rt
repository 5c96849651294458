// One pass over the rows tells what a set covers, and which of its tests have a row of their own.

ghost use Rattle.covers.specs.Scans.{Scanned};

use sets::{EMPTY, meets, single};

// What the rows say of the sets from `chosen` up to `reach`.
#[derive(Clone, Copy)]
pub struct Seen {
    // every row can still be covered
    pub coverable: bool,
    // every row is covered already
    pub covered: bool,
    // the chosen tests that have a row of their own
    pub owned: u32,
}

// One pass over the rows, for the sets from `chosen` up to `reach`.
#[tactic(auto, using(crate::proofs::Scans::covers_more, crate::proofs::Scans::owned_more))]
pub fn scan(rows: &[u32], chosen: u32, reach: u32) -> Seen
    ensures { Scanned rows.now chosen reach result.coverable result.covered result.owned }
{
    let mut coverable = true;
    let mut covered = true;
    let mut owned = EMPTY;
    for row in rows {
        coverable &= meets(*row, reach);
        covered &= meets(*row, chosen);
        owned |= single(*row & chosen);
    }
    Seen {
        coverable,
        covered,
        owned,
    }
}
