ghost use Rattle.std.specs.Prelude.{◌≡◌, ℕ, ◌<◌, ◌≤◌};
ghost use Rattle.finite.specs.Sums.{sum};
ghost use Rattle.weighted.specs.Rows.{entry_at};

use chart::table::SECTIONS;

pub mod kind;
mod pairing;
mod potentials;
mod reading;
mod rows;

/// The most words of a showing.
const LONGEST: usize = 3072;

/// A weighted chart. Row `s` of `rows` has the part of each section, and adds up to `whole`.
#[derive(Drop)]
pub struct Weighted {
    n: usize,
    a: u16,
    b: u16,
    whole: u16,
    // Arrays of 32 beside their length, since a kind uses no heap; two, since nothing uses a section's band and row together.
    bands: [u8; SECTIONS],
    rows: [[u16; SECTIONS]; SECTIONS],
    ghost n_least: { 1 ≤ n },
    ghost n_most: { n ≤ 32 },
    ghost a_least: { 1 ≤ a },
    ghost a_most: { a < b },
    ghost b_most: { b ≤ 1000 },
    ghost whole_least: { 1 ≤ whole },
    ghost whole_most: { whole ≤ 10000 },
    ghost adds_up: { (s : ℕ) → s < n → sum n (entry_at rows s) ≡ whole },
}
