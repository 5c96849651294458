// Readings: what a test may show, in several kinds, all under the same laws.

#![tactic(auto)]

// what every kind of reading must show
pub mod kinds;

// a byte, 255 being the blank
pub mod codes;

// the fault of a span
pub mod faults;

// a span of numbers, low to high
pub mod spans;
#[cfg(test)]
mod tests;
