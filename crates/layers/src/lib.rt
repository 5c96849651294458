// Layers: books over any book, that show its records with something closed. They pile in any order and depth.

#![tactic(auto)]

// the faults of the layers' checks, with number, origin and place
pub mod faults;

// a bar: tests closed
pub mod bar;

// an assembly: parts shown as what they belong to
pub mod assembly;
