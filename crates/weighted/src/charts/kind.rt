ghost use Rattle.std.specs.Prelude.{◌≡◌, ◌*◌, slice_index};
ghost use Rattle.chart.specs.Tables.{distances};
ghost use Rattle.chain.specs.Meaning.{means, weighed};
ghost use Rattle.chain.specs.Coupling.{SupportedIsNowhereRaised, CouplingsBoundPotentials, WholeCouplingsArePairings};
ghost use Rattle.weighted.specs.View.{chain};
ghost use Rattle.chain.proofs.Laws;
ghost use Rattle.weighted.specs.Soundness.{sound};

use crate::charts::{LONGEST, Weighted};
use chain::fault::Fault;
use chart::kind::Chart;
use chart::side::Side;
use chart::table::Table;

impl Weighted {
    /// The band of a section, 0 where there is no such section.
    fn band(&self, s: usize) -> u8
        ensures { result ≡ slice_index self.now.bands s }
    {
        self.bands.get(s).copied().unwrap_or(0)
    }

    /// The discount's denominator times what a row adds up to.
    pub(super) fn scale(&self) -> u64
        ensures { result ≡ self.now.b * self.now.whole }
    {
        u64::from(self.b) * u64::from(self.whole)
    }
}

impl Chart for Weighted {
    type Fault = Fault;

    ghost meaning = { λ w. means (chain w) };

    ghost lawful = { λ w. Laws.lawful (chain w) (sound w) };

    fn sections(&self) -> usize {
        self.n
    }

    fn discount(&self) -> (u32, u32) {
        (u32::from(self.a), u32::from(self.b))
    }

    fn longest(&self) -> u32 {
        // `as`: no `From` makes a u32 of a usize, and it is 3,072.
        LONGEST as u32
    }

    fn apart(&self, s: usize, t: usize) -> bool {
        self.band(s) != self.band(t)
    }

    fn weigh(
        &self,
        side: Side,
        table: &Table,
        s: usize,
        t: usize,
        words: &[i32],
    ) -> Result<u32, Fault>
        ensures answer { result ≡ weighed (chain self.now) side (distances table.now) s t words.now }
        ensures supported { SupportedIsNowhereRaised (chain self.now) }
        ensures bounded { CouplingsBoundPotentials (chain self.now) }
        ensures listed { WholeCouplingsArePairings (chain self.now) }
    {
        match side {
            Side::Upper => self.weigh_pairing(table, s, t, words),
            Side::Lower => self.weigh_potentials(table, s, t, words),
        }
    }
}
