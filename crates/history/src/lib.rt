//! The calls of a register of distances: their refusals and verdicts, the rules of the calls, and what holds after every history of calls.

#![tactic(auto)]

pub mod refusal;
pub mod verdict;
