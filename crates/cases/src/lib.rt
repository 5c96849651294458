// Cases: so far piles of layers over slots, run as tests.

#![tactic(auto)]

#[cfg(test)]
mod piles;
