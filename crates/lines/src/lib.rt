//! The parts of a line of input, fields, numerals, sides and words, and what is wrong with a line.
//!
//! A field is a longest run of bytes that are no blanks; space, tab and carriage return are blanks. A line that has no field,
//! or whose first field begins with `#`, is passed over. Sections and values are decimal numerals, digits only, of numbers below 2^32.
//! A word is a decimal numeral of a signed 32-bit number, with a minus in front or none. A numeral may begin with zeros.

#![tactic(auto)]

pub mod fields;
pub mod malformed;
pub mod numerals;
pub mod parts;
