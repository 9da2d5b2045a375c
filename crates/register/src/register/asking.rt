ghost use Rattle.std.specs.Prelude.{◌≡◌};
ghost use Rattle.chart.specs.Starting.{start_table};
ghost use Rattle.history.specs.Calls.{Ask as Asks};
ghost use Rattle.history.specs.Rules.{Step, fresh, over, side_of, verdict_of};
ghost use Rattle.history.specs.Promises.{KeepsPromise};
ghost use Rattle.register.specs.Calls.{asked};
ghost use Rattle.register.specs.Held.{chart_of, held, top_of};

use crate::contents::Contents;
use crate::phase::Phase;
use crate::register::Register;
use crate::tables::Tables;
use chart::kind::Chart;
use chart::side::Side;
use chart::top::Top;
use history::refusal::Refusal;
use history::verdict::Verdict;

impl<C: Chart> Register<C> {
    /// A fresh register of a chart and a top.
    pub fn new(chart: C, top: Top) -> Register<C>
        ensures chart { chart_of result ≡ chart }
        ensures top { top_of result ≡ top.value }
        ensures fresh { held result ≡ fresh (C.Chart.meaning chart) top.value }
        ensures promise { KeepsPromise (C.Chart.meaning (chart_of result)) (top_of result) (held result) }
        ensures starts { (side : Side) → over (top_of result) (side_of side (held result)) ≡ start_table (C.Chart.meaning chart) side top.value }
    {
        let tables = Tables::starting(&chart, top);
        let phase = Phase::Resting;
        Register {
            contents: Contents {
                chart,
                tables,
                phase,
            },
        }
    }

    /// How many sections the chart has.
    pub fn sections(&self) -> usize
        ensures { result ≡ (C.Chart.meaning (chart_of self.now)).sections }
    {
        self.contents.chart.sections()
    }

    /// Weighs a showing in the table of a side, with no claims laid over it.
    pub fn weigh(&self, side: Side, s: usize, t: usize, words: &[i32]) -> Result<u32, C::Fault>
        ensures { result ≡ (C.Chart.meaning (chart_of self.now)).weigh side (over (top_of self.now) (side_of side (held self.now))) s t words.now }
    {
        let held = &self.contents;
        held.chart.weigh(side, held.tables.of(side), s, t, words)
    }

    /// The lower entry of a pair, the upper entry, and what they say.
    ///
    /// A history of calls led to what the register holds, and whatever history did: the entries bound the distances from both sides, and at rest a full certificate can be entered. Where a pair is settled, every register of the same chart that settles it agrees.
    #[tactic(auto, using(crate::proofs::Steps::ask_outside, crate::proofs::Steps::ask_answers, crate::proofs::Steps::inside_both, crate::proofs::Steps::outside_one))]
    pub fn ask(&self, s: usize, t: usize) -> Result<(u32, u32, Verdict), Refusal<C::Fault>>
        ensures rule { Step (C.Chart.meaning (chart_of self.now)) (top_of self.now) (held self.now) (Asks s t) (asked result) (held self.now) }
        ensures promise { KeepsPromise (C.Chart.meaning (chart_of self.now)) (top_of self.now) (held self.now) }
    {
        if !self.contents.chart.has_both(s, t) {
            return Err(Refusal::AskOutside);
        }
        let (lower, upper) = self.contents.tables.entries(s, t);
        let verdict = verdict(self.contents.chart.apart(s, t), lower == upper);
        Ok((lower, upper, verdict))
    }
}

/// What the entries of a pair say, of whether the sections are apart and whether the entries are equal.
// Of two facts, as the rule has them.
fn verdict(apart: bool, equal: bool) -> Verdict
    ensures { result ≡ verdict_of apart equal }
{
    if apart {
        Verdict::Apart
    } else if equal {
        Verdict::Settled
    } else {
        Verdict::Open
    }
}
