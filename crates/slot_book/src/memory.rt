// The memory of a slot book: the cells of slot k are those from k × width on, as many as the width.

ghost use Rattle.slot_book.specs.Slots.{valid_slots};
ghost use Rattle.std.specs.Prelude.{◌≡◌, true};

use crate::slots::Slot;

// memory checked and opened
pub mod opened;

// the questions
pub mod asked;

// the changes
pub mod changed;

// The readings stand beside the slots, by a rule of the project: the caller lends both, and a width is known only as a book opens.
#[derive(Drop)]
pub struct SlotBook<'a, R> {
    slots: &'a mut [Slot],
    cells: &'a mut [R],
    width: u32,
    ghost valid: { valid_slots slots.now cells.now width ≡ true },
}
