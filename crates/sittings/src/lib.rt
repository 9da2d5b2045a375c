//! A test that is sat twice, under two charts of any kind with the same sections. The two may be such themselves.

#![tactic(auto)]

pub mod misfit;
pub mod two;
