// What a line is refused for, looked at before a byte is written.

ghost use Rattle.std.specs.Prelude.{◌≡◌, ◌≤◌, OnOk};
ghost use Rattle.text.specs.Refused.{plan_fault, room_fault};
ghost use Rattle.refusals.specs.Faults.{passed};
ghost use Rattle.text.specs.Told.{Passes};

use crate::faults::TextFault;

// Every line fits into this many bytes.
const ROOM: usize = 64;

// The highest test that a plan can have.
pub(crate) const HIGHEST: u32 = 24;

pub(crate) fn check_room(size: usize) -> Result<(), TextFault>
    ensures answer { result ≡ passed (room_fault size) }
    ensures room { OnOk result (64 ≤ size) }
{
    if size < ROOM {
        Err(TextFault::Room)
    } else {
        Ok(())
    }
}

// The refusals in rising order of their numbers.
#[tactic(auto, using(crate::proofs::Telling::fault_told))]
pub(crate) fn check_plan(tests: u32, size: usize) -> Result<(), TextFault>
    ensures answer { result ≡ passed (plan_fault tests size) }
    ensures room { OnOk result (64 ≤ size) }
    ensures told { Passes tests result }
{
    match sets::lowest_above(tests, HIGHEST) {
        Some(test) => Err(TextFault::Outside { test }),
        None => check_room(size),
    }
}
