//! Registers over the charts of files: of a chart, or of the two charts of a test that is sat twice. What a call comes to is told in numbers, as it crosses to C.

#![tactic(auto)]

mod faults;
pub mod outcome;
pub mod registers;
