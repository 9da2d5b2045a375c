//! Reads one line of input: a call of the register, `ask`, or a showing to be weighed.
//!
//! The fields are those of the crate `lines`. A line that has no field, or whose first field begins with `#`, is passed over.
//! Else the first field is the name of a command, and the command's own fields follow it.

#![tactic(auto)]

pub mod command;
pub mod line;
mod name;
