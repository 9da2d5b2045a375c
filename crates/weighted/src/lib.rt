//! Weighted charts: a section goes on to each section by chance, in whole parts. Fixed memory, no heap.

#![tactic(auto)]

pub mod charts;
