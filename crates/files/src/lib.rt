//! Chart files: the fields of a file's header, its bands, and the first reason why a file is not read.
//!
//! A file begins with eight fields of 16 bits, high byte first: the kind of chart, the number of sections,
//! the numerator and the denominator of the discount, what each row of a weighted chart adds up to (0 for
//! a choice chart), where the bands begin, where the routes begin, and how many bytes the file has. The bands
//! are a byte for each section. The routes of a weighted chart are a row for each section, with 16 bits for
//! each section; those of a choice chart are a mask of 32 bits for each section, high byte first, whose bit of
//! value 2^u marks section u as a successor. The bands and the routes lie after the header and share no byte,
//! and the other bytes are ignored.

#![tactic(auto)]

pub mod bytes;
pub mod file;
pub mod header;
pub mod kind;
mod layout;
pub mod refusal;
mod span;
