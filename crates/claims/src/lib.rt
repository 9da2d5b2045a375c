//! A register's draft: what it claims for each pair and how many claims it has, and once it is closed which of them are shown, how many are not, and the table in which showings are weighed.

#![tactic(auto)]

pub mod closed;
pub mod draft;
