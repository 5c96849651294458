// The matrix of a book: one row for each two held records of different parts, the set of tests that tells them apart.

#![tactic(auto)]

// two records of a book, compared
mod pairs;

// the matrix, and the rows of one record
pub mod rows;

// the core of a book
pub mod lonely;
