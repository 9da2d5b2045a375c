ghost use Rattle.std.specs.Prelude.{◌≡◌, ℕ, ◌<◌, ◌≤◌, length, slice_index, MatchOption};
ghost use Rattle.chart.specs.Tables.{distances, capped, overlaid};
ghost use Rattle.chart.specs.Starting.{judged_pair, start_entry, start_table};

use crate::kind::Chart;
use crate::side::Side;
use crate::table::{CELLS, SECTIONS, Table, cell_index};
use crate::top::Top;
use std::array;

impl Table {
    /// The table in which a register of the chart starts on a side.
    pub fn starting<C: Chart>(chart: &C, side: Side, top: Top) -> Table
        ensures { distances result ≡ start_table (C.Chart.meaning chart.now) side top.value }
    {
        Table {
            top,
            cells: array::from_fn(|i| start_entry(chart, side, top, i / SECTIONS, i % SECTIONS)),
        }
    }

    /// The number of its top.
    pub fn top(&self) -> u32
        ensures { result ≡ (distances self.now).top }
    {
        self.top.value()
    }

    /// The entry of a pair, which is the top where a section is not below 32.
    pub fn entry(&self, s: usize, t: usize) -> u32
        ensures { result ≡ (distances self.now).entry s t }
    {
        cell_index(s, t).map_or(self.top(), |i| self.cells[i])
    }

    /// The entries of a section with each of 32 sections, or none where it is not below 32.
    pub fn row(&self, s: usize) -> Option<&[u32]>
        ensures { MatchOption result (32 ≤ s) (λ row. (s < 32) × (length row.now ≡ 32) × ((t : ℕ) → t < 32 → slice_index row.now t ≡ (distances self.now).entry s t)) }
    {
        let start = cell_index(s, 0)?;
        self.cells.get(start..start + SECTIONS)
    }

    /// The table with these values in place of its entries; a value above the top counts as the top.
    pub fn overlaid(&self, values: &[Option<u32>; CELLS]) -> Table
        ensures { distances result ≡ overlaid values.now (distances self.now) }
    {
        let limit = self.top();
        Table {
            top: self.top,
            cells: array::from_fn(|i| capped(values[i], self.cells[i], limit)),
        }
    }
}

/// The value, at most the limit, or the entry where there is none.
fn capped(given: Option<u32>, old: u32, limit: u32) -> u32
    ensures { result ≡ capped given old limit }
{
    given.map_or(old, |v| v.min(limit))
}

/// The entry with which a pair starts.
fn start_entry<C: Chart>(chart: &C, side: Side, top: Top, s: usize, t: usize) -> u32
    ensures { result ≡ start_entry side (judged_pair (C.Chart.meaning chart.now) s t) top.value }
{
    match side {
        Side::Lower if chart.judges(s, t) => 0,
        _ => top.value(),
    }
}
