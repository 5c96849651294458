// Cases of matrices and benches, run as tests: the matrix of a book, benches with their histories.

#![tactic(auto)]

#[cfg(test)]
mod benches;
#[cfg(test)]
mod matrices;
