ghost use Rattle.std.specs.Prelude.{◌≡◌, ◌≤◌, false};
ghost use Rattle.chart.specs.Tables.{distances};
ghost use Rattle.chart.specs.Starting.{start_table};
ghost use Rattle.chart.specs.declared.side.Side.TheVariants.{Upper, Lower};
ghost use Rattle.history.specs.Rules.{resting, side_of, over, written};
ghost use Rattle.claims.specs.Views.{values_of, marks_of, highest};
ghost use Rattle.register.specs.Tables.{top_in, state, unfit, LaidOver};

use crate::tables::Tables;
use chart::kind::Chart;
use chart::side::Side;
use chart::table::Table;
use chart::top::Top;
use claims::closed::ClosedDraft;
use claims::draft::Claims;

impl Tables {
    /// The tables in which a register of the chart starts.
    pub(crate) fn starting<C: Chart>(chart: &C, top: Top) -> Tables
        ensures upper { distances result.upper ≡ start_table (C.Chart.meaning chart.now) Upper top.value }
        ensures lower { distances result.lower ≡ start_table (C.Chart.meaning chart.now) Lower top.value }
    {
        Tables {
            upper: Table::starting(chart, Side::Upper, top),
            lower: Table::starting(chart, Side::Lower, top),
        }
    }

    /// The table of a side.
    pub(crate) fn of(&self, side: Side) -> &Table
        ensures { distances result.now ≡ over (top_in self.now) (side_of side (state self.now resting)) }
    {
        match side {
            Side::Upper => &self.upper,
            Side::Lower => &self.lower,
        }
    }

    /// The lower and the upper entry of a pair.
    pub(crate) fn entries(&self, s: usize, t: usize) -> (u32, u32)
        ensures lower { result.0 ≡ (state self.now resting).lower s t }
        ensures upper { result.1 ≡ (state self.now resting).upper s t }
    {
        (self.lower.entry(s, t), self.upper.entry(s, t))
    }

    /// Whether a value may not be claimed for a pair: an upper one above the entry, a lower one below it or above the top.
    pub(crate) fn unfit(&self, side: Side, s: usize, t: usize, value: u32) -> bool
        ensures { result ≡ unfit side (top_in self.now) (side_of side (state self.now resting) s t) value }
    {
        match side {
            Side::Upper => value > self.upper.entry(s, t),
            Side::Lower => value < self.lower.entry(s, t) || value > self.lower.top(),
        }
    }

    // The bound stays a `requires` of these two: a struct that lent the tables and the claims for one call would be no plainer.

    /// The draft of these claims, closed: none is shown, and showings are weighed in the table of their side with all of them laid over it.
    pub(crate) fn close(&self, claims: Claims) -> ClosedDraft
        requires { highest claims.values ≤ top_in self.now }
        ensures same { result.claims ≡ claims }
        ensures none { marks_of result ≡ (λ s t. false) }
        ensures laid { LaidOver self.now result }
    {
        ClosedDraft::new(claims, self.of(claims.side()))
    }

    /// Writes the claims into the table of their side.
    pub(crate) fn write(&mut self, claims: &Claims)
        requires { highest claims.now.values ≤ top_in self.old }
        ensures top { top_in self.new ≡ top_in self.old }
        ensures written { state self.new resting ≡ written claims.now.side (values_of claims.now) (state self.old resting) }
    {
        match claims.side() {
            Side::Upper => self.upper = claims.over(&self.upper),
            Side::Lower => self.lower = claims.over(&self.lower),
        }
    }
}
