ghost use Rattle.std.specs.Prelude.{◌≡◌, ℕ, ◌^◌, ◌<◌, ◌≤◌, slice_index};

use chart::table::SECTIONS;

pub mod kind;
mod masks;
mod pairing;
mod potentials;
mod reading;
mod successors;

/// The most words of a showing.
const LONGEST: usize = 2048;

/// A choice chart. The bit of value 2^u of mask `s` marks section `u` as a successor of `s`; outside the sections all is 0.
#[derive(Drop)]
pub struct Choice {
    n: usize,
    a: u16,
    b: u16,
    // Arrays of 32 beside their length, since a kind uses no heap; two, since nothing uses a section's band and mask together.
    bands: [u8; SECTIONS],
    masks: [u32; SECTIONS],
    ghost n_least: { 1 ≤ n },
    ghost n_most: { n ≤ 32 },
    ghost a_least: { 1 ≤ a },
    ghost a_most: { a < b },
    ghost b_most: { b ≤ 1000 },
    ghost goes_on: { (s : ℕ) → s < n → 1 ≤ slice_index masks s },
    ghost within: { (s : ℕ) → slice_index masks s < 2 ^ n },
}
