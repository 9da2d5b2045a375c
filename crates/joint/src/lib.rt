//! What two sittings of one test mean: which two charts fit, how the words of a showing are shared out, and the faults;
//! the proof that the two keep the laws by those of their charts.

#![tactic(auto)]

pub mod fault;
