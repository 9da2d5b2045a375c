//! Where the fields of a header lie, and how many bytes it takes.
pub const KIND_AT: usize = 0;

pub const SECTIONS_AT: usize = 2;

pub const NUMERATOR_AT: usize = 4;

pub const DENOMINATOR_AT: usize = 6;

pub const WHOLE_AT: usize = 8;

pub const BANDS_AT: usize = 10;

pub const ROUTES_AT: usize = 12;

pub const LENGTH_AT: usize = 14;

pub const HEADER_BYTES: usize = 16;
