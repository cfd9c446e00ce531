// What judging and doing share: limits, numbers, and the table of decisions.
#![tactic(auto)]

pub mod decision;
pub mod numbers;
