//! The register of distances: for each pair of sections a lower and an upper bound, which only a showing that the chart weighs lets in. Fixed memory, no heap.

#![tactic(auto)]

pub mod call;
pub mod contents;
mod drafts;
pub mod phase;
pub mod register;
pub mod tables;
