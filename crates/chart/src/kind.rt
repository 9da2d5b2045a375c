ghost use Rattle.std.specs.Prelude.{◌≡◌, ◌≤◌, ◌&&◌, nat_lt};
ghost use Rattle.chart.specs.Tables.{distances};
ghost use Rattle.chart.specs.Meaning.{Meaning};
ghost use Rattle.chart.specs.Starting.{judged_pair};
ghost use Rattle.chart.specs.Laws.{Lawful};

use crate::side::Side;
use crate::table::Table;

/// A kind of chart: what a chart of the kind means, what it tells, and its two weighings.
pub trait Chart {
    /// Why a showing is not valid.
    type Fault;

    ghost meaning: { Self → Meaning Self.Fault };

    /// How many sections there are.
    fn sections(&self) -> usize
        ensures value { result ≡ (meaning self.now).sections };

    /// The discount, as a numerator and a denominator.
    fn discount(&self) -> (u32, u32)
        ensures numerator { result.0 ≡ (meaning self.now).numerator }
        ensures denominator { result.1 ≡ (meaning self.now).denominator };

    /// The most words that a valid showing has.
    fn longest(&self) -> u32
        ensures { result ≡ (meaning self.now).longest };

    /// Whether two sections are apart.
    // Two numbers here and in the crates above, and not a struct of a pair: each clause would take it apart again.
    fn apart(&self, s: usize, t: usize) -> bool
        ensures { result ≡ (meaning self.now).apart s t };

    /// The least claim that a pairing shows, or the greatest that potentials show, for `(s, t)` in the table.
    fn weigh(
        &self,
        side: Side,
        table: &Table,
        s: usize,
        t: usize,
        words: &[i32],
    ) -> Result<u32, Self::Fault>
        ensures { result ≡ (meaning self.now).weigh side (distances table.now) s t words.now };

    /// Whether the chart has both sections.
    final fn has_both(&self, s: usize, t: usize) -> bool
        ensures { result ≡ (nat_lt s (meaning self.now).sections && nat_lt t (meaning self.now).sections) }
    {
        s < self.sections() && t < self.sections()
    }

    /// Whether two sections are a judged pair: the chart has both, and they are not apart.
    final fn judges(&self, s: usize, t: usize) -> bool
        ensures { result ≡ judged_pair (meaning self.now) s t }
    {
        self.has_both(s, t) && !self.apart(s, t)
    }

    ghost lawful: { (c : Self) → Lawful (meaning c) };
}
