// The calls of a host in C or Rust: thin functions on numbers and lent arrays, the three of the host's saved state among them: so
// some have more parameters than a function of the library has.
//
// Nothing is asked of the caller but that what is lent is there, and that nothing is lent twice. A host links them from `exports_c`, where they
// stand under the same names. The name of each call but `parnusild_sizes` ends with the room of a state: a host that was built for another room
// does not link.
#![tactic(auto)]

pub mod event;
pub mod fresh;
mod parts;
pub mod replay;
pub mod rest;
pub mod sizes;
pub mod write;
