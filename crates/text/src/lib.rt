// Text: one line into a caller's buffer, in reading order.

#![tactic(auto)]

pub mod faults; // what a line is refused for
pub mod lines; // the head line, the plan line, the refusal line
mod checks; // the refusals, looked for before a byte is written
mod writing; // a line that grows in a buffer
#[cfg(test)]
mod tests;
