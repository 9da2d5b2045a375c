//! The commands of a script, played against a register: what each answers, or why it gets no answer; and the report at the end of a script.

#![tactic(auto)]

pub mod answer;
pub mod play;
pub mod rejection;
pub mod report;
pub mod session;
pub mod writing;
