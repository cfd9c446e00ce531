// The rules of a table, on the lent arrays of a state.
#![tactic(auto)]

pub mod links;
pub mod table;
