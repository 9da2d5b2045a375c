ghost use Rattle.std.specs.Prelude.{◌≡◌, ◌<◌, ◌≤◌, max, ◌⊎◌, Some, None};
ghost use Rattle.chart.specs.Tables.{distances, overlaid};
ghost use Rattle.history.specs.Rules.{put, claims, laid, over};
ghost use Rattle.claims.specs.Views.{values_of, highest};

use crate::draft::Claims;
use chart::side::Side;
use chart::table::{CELLS, Table, cell_index};

impl Claims {
    /// No claims, for a side.
    pub fn new(side: Side) -> Claims
        ensures same { result.side ≡ side }
        ensures empty { values_of result ≡ (λ s t. None) }
        ensures zero { highest result.values ≡ 0 }
    {
        Claims {
            side,
            count: 0,
            values: [None; CELLS],
        }
    }

    /// The side that they are for.
    pub fn side(&self) -> Side
        ensures { result ≡ self.now.side }
    {
        self.side
    }

    /// The value that is claimed for a pair.
    pub fn value(&self, s: usize, t: usize) -> Option<u32>
        ensures { result ≡ values_of self.now s t }
    {
        self.values[cell_index(s, t)?]
    }

    /// Claims a value for a pair, in place of what was claimed for it; nothing changes where a section is not below 32.
    pub fn put(&mut self, s: usize, t: usize, value: u32)
        ensures same { self.new.side ≡ self.old.side }
        ensures inside { s < 32 → t < 32 → values_of self.new ≡ put s t (Some value) (values_of self.old) }
        ensures outside { (32 ≤ s) ⊎ (32 ≤ t) → self.new ≡ self.old }
        ensures most { highest self.new.values ≤ max (highest self.old.values) value }
    {
        if let Some(i) = cell_index(s, t) {
            if self.values[i].replace(value).is_none() {
                self.count += 1;
            }
        }
    }

    /// How many claims there are.
    pub fn count(&self) -> u32
        ensures { result ≡ claims (values_of self.now) }
    {
        self.count
    }

    /// The table with the claims laid over it; a value above the top counts as the top.
    pub fn over(&self, table: &Table) -> Table
        ensures capped { distances result ≡ overlaid self.now.values (distances table.now) }
        ensures within { highest self.now.values ≤ (distances table.now).top → distances result ≡ over (distances table.now).top (laid (values_of self.now) (distances table.now).entry) }
    {
        table.overlaid(&self.values)
    }
}
