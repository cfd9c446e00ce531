// Lent bytes: what is left of them from a place on, and the numbers that stand in them.
#![tactic(auto)]

pub mod number;
pub mod place;
