//! Sides, tops and tables of distances; what a kind of chart means, its laws, and the trait that every kind implements.

#![tactic(auto)]

pub mod kind;
pub mod side;
pub mod table;
pub mod top;
