// Books: what a book is, once, as an interface with a meaning.

#![tactic(auto)]

// every fault of a page and of a book, with its number, origin and place
pub mod faults;

// the questions
pub mod shown;

// the changes
pub mod book;

// the look-up in the refusal table
pub mod table;
#[cfg(test)]
mod tests;
