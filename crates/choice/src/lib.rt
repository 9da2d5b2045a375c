//! Choice charts: a section goes on to one of a non-empty set of sections, by choice. Fixed memory, no heap.

#![tactic(auto)]

pub mod charts;
