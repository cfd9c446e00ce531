// Free positions: by table from the pattern of those that are taken, and the pattern from the bits of a word.
#![tactic(auto)]

pub mod bits;
pub mod table;
