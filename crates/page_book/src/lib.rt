// The page book: a book laid out in bytes, records of 32 bytes one after another.

#![tactic(auto)]

// a record's bytes: where tag, part and readings stand, and which byte is wrong
mod layout;

pub use layout::LARGEST;
// tags that stand twice
mod tags;
// whether bytes are a page of a width
pub mod checks;
// the matrix of a page: a row for each two records of different parts
pub mod rows;
// a page that is a book
pub mod book;
// one change in a page that the caller holds
pub mod changed;
