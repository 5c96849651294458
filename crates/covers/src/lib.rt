// Covers: sets of tests as masks, and the listing of all minimal covers of a matrix.

#![tactic(auto)]

// the faults of the cover call
pub mod faults;

// one pass over the rows of a matrix
mod scanning;

// dividing a matrix on one test and again on the next
mod dividing;

// the cover call: all minimal covers into the caller's list
pub mod listing;

// the core of a matrix
pub mod lonely;
#[cfg(test)]
mod tests;
