// Opening a slot book over the caller's memory.

ghost use Rattle.std.specs.Prelude.{◌≡◌, ◌*◌, ◌≤◌};
ghost use Rattle.refusals.specs.Faults.{passed};
ghost use Rattle.slot_book.specs.Opened.{Opened, refused_slots};

use crate::cells::blank_cells;
use crate::memory::SlotBook;
use crate::slots::{NO_SLOT, Slot};
use books::faults::BookFault;
use readings::kinds::Reading;

// tests of the narrowest book
const NARROWEST: u32 = 1;
// and of the widest
const WIDEST: u32 = 24;
// slots of the largest book
const MOST: usize = 64;

// Whether a book of this width opens over the memory; what the slots and cells hold does not matter.
pub fn check<R: Reading>(slots: &[Slot], cells: &[R], width: u32) -> Result<(), BookFault>
    ensures { result ≡ passed (refused_slots slots.now cells.now width) }
{
    if !(NARROWEST..=WIDEST).contains(&width) {
        return Err(BookFault::Width);
    }
    if slots.len() > MOST || cells.len() != slots.len() * width as usize {
        return Err(BookFault::Size);
    }
    Ok(())
}

impl<'a, R: Reading> SlotBook<'a, R> {
    // Opens an empty book: the memory is emptied. Where the check refuses, the book has no slots.
    pub fn new(slots: &'a mut [Slot], cells: &'a mut [R], width: u32) -> SlotBook<'a, R>
        ensures { Opened R.Reading.kind slots.entry cells.entry width result }
    {
        open(slots, cells, width)
    }
}

// Apart from the call above so that a wrong call there is refused by a fact, and not by this proof.
#[tactic(auto, using(crate::proofs::Opening::none_valid, crate::proofs::Opening::emptied_valid, crate::proofs::Opening::none_gathered))]
fn open<'a, R: Reading>(slots: &'a mut [Slot], cells: &'a mut [R], width: u32) -> SlotBook<'a, R>
    ensures { Opened R.Reading.kind slots.entry cells.entry width result }
{
    if check(slots, cells, width).is_err() {
        return SlotBook {
            slots: &mut slots[..0],
            cells: &mut cells[..0],
            width: NARROWEST,
        };
    }
    slots.fill(NO_SLOT);
    blank_cells(cells);
    SlotBook {
        slots,
        cells,
        width,
    }
}
