ghost use Rattle.std.specs.Prelude.{◌≡◌, slice_index};
ghost use Rattle.chart.specs.Tables.{distances};
ghost use Rattle.transitions.specs.Meaning.{means, weighed};
ghost use Rattle.transitions.specs.Hausdorff.{SupportedIsNotRaised};
ghost use Rattle.transitions.specs.Registers.{RegistersBound, SettledIsDistance};
ghost use Rattle.transitions.proofs.Laws;
ghost use Rattle.choice.specs.View.{system};
ghost use Rattle.choice.specs.Soundness.{sound};

use crate::charts::{Choice, LONGEST};
use chart::kind::Chart;
use chart::side::Side;
use chart::table::Table;
use transitions::fault::Fault;

impl Choice {
    /// The band of a section, 0 where there is no such section.
    fn band(&self, s: usize) -> u8
        ensures { result ≡ slice_index self.now.bands s }
    {
        self.bands.get(s).copied().unwrap_or(0)
    }
}

impl Chart for Choice {
    type Fault = Fault;

    ghost meaning = { λ w. means (system w) };

    ghost lawful = { λ w. Laws.lawful (system w) (sound w) };

    fn sections(&self) -> usize {
        self.n
    }

    fn discount(&self) -> (u32, u32) {
        (u32::from(self.a), u32::from(self.b))
    }

    fn longest(&self) -> u32 {
        // `as`: no `From` makes a u32 of a usize, and it is 2,048.
        LONGEST as u32
    }

    fn apart(&self, s: usize, t: usize) -> bool {
        self.band(s) != self.band(t)
    }

    fn weigh(
        &self,
        side: Side,
        table: &Table,
        s: usize,
        t: usize,
        words: &[i32],
    ) -> Result<u32, Fault>
        ensures answer { result ≡ weighed (system self.now) side (distances table.now) s t words.now }
        ensures supported { SupportedIsNotRaised (system self.now) }
        ensures bounds { RegistersBound (system self.now) }
        ensures settled { SettledIsDistance (system self.now) }
    {
        match side {
            Side::Upper => self.weigh_pairing(table, s, t, words),
            Side::Lower => self.weigh_potentials(table, s, t, words),
        }
    }
}
