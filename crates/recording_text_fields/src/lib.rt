// Bytes cut at separators, into the lines of a text and the fields of a line; the fields that are numbers; and why a line cannot be read.
#![tactic(auto)]

pub mod fault;
pub mod number;
pub mod piece;
