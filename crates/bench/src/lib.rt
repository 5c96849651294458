// The bench: one book, whose plans are listed again after every change.

#![tactic(auto)]

// every fault of a bench, with its number, origin and place
pub mod faults;

// the bench and its four calls
pub mod bench;

// plans of a whole book, without a bench
pub mod whole;

// plans for one record
pub mod single;

// lists of calls, run on a new bench
pub mod histories;
