//! What a choice chart means: a finite transition system, its pairings and potentials, the faults of both,
//! the laws that it keeps as a kind of chart, and that its supported tables are those that the discounted Hausdorff operator does not raise.

#![tactic(auto)]

pub mod fault;
