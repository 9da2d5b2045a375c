//! What a weighted chart means: a Markov chain in whole parts, its pairings and potentials, the faults of both,
//! the laws that it keeps as a kind of chart, and how the tables of its registers bound the discounted bisimilarity distance.

#![tactic(auto)]

pub mod fault;
