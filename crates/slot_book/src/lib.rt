// The slot book: a book in the caller's memory, up to 64 slots beside their readings, for every kind of reading.

#![tactic(auto)]

// a slot, and what is found among slots
pub mod slots;

// cells made blank
mod cells;

// the book: slots, cells and what always holds of them
pub mod memory;
