ghost use Rattle.std.specs.Prelude.{◌≡◌, ◌<◌, ◌≤◌, true, false, ◌⊎◌};
ghost use Rattle.chart.specs.Tables.{distances, overlaid};
ghost use Rattle.history.specs.Rules.{put, unshown};
ghost use Rattle.claims.specs.Views.{values_of, marks_of};
ghost use Rattle.claims.specs.Scan.{First, waits};

use crate::closed::ClosedDraft;
use crate::draft::Claims;
use chart::kind::Chart;
use chart::table::{CELLS, SECTIONS, Table, cell_index};

impl ClosedDraft {
    /// A draft of these claims, laid over the table; none is shown.
    pub fn new(claims: Claims, table: &Table) -> ClosedDraft
        ensures same { result.claims ≡ claims }
        ensures none { marks_of result ≡ (λ s t. false) }
        ensures laid { distances result.laid ≡ overlaid claims.values (distances table.now) }
    {
        ClosedDraft {
            left: claims.count(),
            laid: claims.over(table),
            shown: [false; CELLS],
            claims,
        }
    }

    /// The claims.
    pub fn claims(&self) -> &Claims
        ensures { result.now ≡ self.now.claims }
    {
        &self.claims
    }

    /// Weighs a showing of a pair in the table with all of the claims laid over it.
    pub fn weigh<C: Chart>(
        &self,
        chart: &C,
        s: usize,
        t: usize,
        words: &[i32],
    ) -> Result<u32, C::Fault>
        ensures { result ≡ (C.Chart.meaning chart.now).weigh self.now.claims.side (distances self.now.laid) s t words.now }
    {
        chart.weigh(self.claims.side(), &self.laid, s, t, words)
    }

    /// Whether the claim of a pair is shown.
    pub fn is_shown(&self, s: usize, t: usize) -> bool
        ensures { result ≡ marks_of self.now s t }
    {
        cell_index(s, t).is_some_and(|i| self.shown[i])
    }

    /// Marks the claim of a pair as shown; nothing changes where a section is not below 32.
    pub fn mark(&mut self, s: usize, t: usize)
        ensures claims { self.new.claims ≡ self.old.claims }
        ensures laid { self.new.laid ≡ self.old.laid }
        ensures inside { s < 32 → t < 32 → marks_of self.new ≡ put s t true (marks_of self.old) }
        ensures outside { (32 ≤ s) ⊎ (32 ≤ t) → self.new ≡ self.old }
    {
        if let Some(i) = cell_index(s, t) {
            if self.waits(s, t) {
                self.left -= 1;
            }
            self.shown[i] = true;
        }
    }

    /// How many claims are not shown.
    pub fn left(&self) -> u32
        ensures { result ≡ unshown (values_of self.now.claims) (marks_of self.now) }
    {
        self.left
    }

    /// The first pair, by its first section and then its second, with a claim that is not shown.
    pub fn first_unshown(&self) -> Option<(usize, usize)>
        ensures { First (values_of self.now.claims) (marks_of self.now) result }
    {
        // Two loops, as the rule names the pairs; a search through the cells would have to take the pair out of an index.
        for s in 0..SECTIONS {
            for t in 0..SECTIONS {
                if self.waits(s, t) {
                    return Some((s, t));
                }
            }
        }
        None
    }

    /// Whether a pair has a claim that is not shown.
    fn waits(&self, s: usize, t: usize) -> bool
        ensures { result ≡ waits (values_of self.now.claims) (marks_of self.now) s t }
    {
        self.claims.value(s, t).is_some() && !self.is_shown(s, t)
    }
}
