//! A chart of the kind that its file names: a kind of chart of its own, over weighted charts and choice charts.

#![tactic(auto)]

pub mod charts;
pub mod fault;
