ghost use Rattle.std.specs.Prelude.{◌≡◌, ℕ, ◌/◌, ◌%◌, ◌<◌, ◌≤◌, slice_index};
ghost use Rattle.std.specs.Option.{IfSome};
ghost use Rattle.chart.specs.Cells.{cell_index};

use crate::top::Top;

mod entries;

/// The most sections that a chart has.
pub const SECTIONS: usize = 32;

/// The ordered pairs of that many sections.
pub const CELLS: usize = SECTIONS * SECTIONS;

/// The index of a pair among the cells of all pairs, which lie row by row.
pub fn cell_index(s: usize, t: usize) -> Option<usize>
    ensures index { result ≡ cell_index s t }
    ensures within { IfSome result (λ i. i < CELLS) }
    ensures own { IfSome result (λ i. (i / SECTIONS ≡ s) × (i % SECTIONS ≡ t)) }
{
    if s < SECTIONS && t < SECTIONS {
        Some(s * SECTIONS + t)
    } else {
        None
    }
}

/// A table over a top: for each ordered pair of sections an entry from 0 to the top.
#[derive(Drop)]
pub struct Table {
    top: Top,
    // An array, since a register uses no heap.
    cells: [u32; CELLS],
    ghost bounded: { (i : ℕ) → slice_index cells i ≤ top.value },
}
