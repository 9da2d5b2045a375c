//! The register for C: a static library over registers of chart files. A register is held behind a handle.

#![tactic(auto)]

pub mod asking;
pub mod calls;
pub mod handle;
pub mod making;
