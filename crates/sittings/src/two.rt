ghost use Rattle.std.specs.Prelude.{◌≡◌, option_map};
ghost use Rattle.chart.specs.Tables.{distances};
ghost use Rattle.joint.specs.Fitting.{fit};
ghost use Rattle.sittings.specs.Making.{made};
ghost use Rattle.joint.specs.Splitting.{split, addressed};
ghost use Rattle.joint.specs.Meaning.{together, weighed_alone, pairing, potentials};
ghost use Rattle.joint.proofs.Laws;

use crate::misfit::Misfit;
use chart::kind::Chart;
use chart::side::Side;
use chart::table::Table;
use joint::fault::{Fault, FirstFault, SecondFault};

/// The most words that a showing of two sittings may have.
const LONGEST: u64 = 2_000_000_000;

/// A test that is sat twice: once under the first chart, as sitting 0, and once under the second, as sitting 1.
#[derive(Drop)]
pub struct Sittings<X, Y> {
    first: X,
    second: Y,
}

impl<X: Chart, Y: Chart> Sittings<X, Y> {
    /// The two charts as sittings of one test, or both handed back if they do not fit.
    pub fn new(first: X, second: Y) -> Result<Sittings<X, Y>, Misfit<X, Y>>
        ensures { result ≡ made (fit (X.Chart.meaning first) (Y.Chart.meaning second)) first second }
    {
        if fits(&first, &second) {
            Ok(Sittings { first, second })
        } else {
            Err(Misfit { first, second })
        }
    }

    /// What sitting 0 answers to a showing of its own.
    fn weigh_alone(
        &self,
        side: Side,
        table: &Table,
        s: usize,
        t: usize,
        words: &[i32],
    ) -> Result<u32, Fault<X::Fault, Y::Fault>>
        ensures { result ≡ weighed_alone (X.Chart.meaning self.now.first) side (distances table.now) s t words.now }
    {
        if !self.first.judges(s, t) {
            return Err(Fault::Unjudged);
        }
        Ok(
            self.first
                .weigh(side, table, s, t, words)
                .map_err(FirstFault)?,
        )
    }

    /// The larger of the least claims that sitting 0 and sitting 1 show, each by its own words.
    fn weigh_pairing(
        &self,
        table: &Table,
        s: usize,
        t: usize,
        words: &[i32],
    ) -> Result<u32, Fault<X::Fault, Y::Fault>>
        ensures { result ≡ pairing (X.Chart.meaning self.now.first) (Y.Chart.meaning self.now.second) (distances table.now) s t (split words.now) }
    {
        let Some((first, second)) = split(words) else {
            return Err(Fault::Split);
        };
        let first = self
            .first
            .weigh(Side::Upper, table, s, t, first)
            .map_err(FirstFault)?;
        let second = self
            .second
            .weigh(Side::Upper, table, s, t, second)
            .map_err(SecondFault)?;
        Ok(first.max(second))
    }

    /// The greatest claim that the sitting of the first word shows by the rest.
    fn weigh_potentials(
        &self,
        table: &Table,
        s: usize,
        t: usize,
        words: &[i32],
    ) -> Result<u32, Fault<X::Fault, Y::Fault>>
        ensures { result ≡ potentials (X.Chart.meaning self.now.first) (Y.Chart.meaning self.now.second) (distances table.now) s t (addressed words.now) }
    {
        match words {
            [0, rest @ ..] => Ok(
                self.first
                    .weigh(Side::Lower, table, s, t, rest)
                    .map_err(FirstFault)?,
            ),
            [1, rest @ ..] => Ok(
                self.second
                    .weigh(Side::Lower, table, s, t, rest)
                    .map_err(SecondFault)?,
            ),
            _ => Err(Fault::NoSitting),
        }
    }
}

/// Whether two charts are sittings of one test: they have as many sections and one discount, and a showing of both is not too long.
fn fits<X: Chart, Y: Chart>(first: &X, second: &Y) -> bool
    ensures { result ≡ fit (X.Chart.meaning first.now) (Y.Chart.meaning second.now) }
{
    first.sections() == second.sections()
        && first.discount() == second.discount()
        && u64::from(first.longest()) + u64::from(second.longest()) + 1 <= LONGEST
}

/// The words of a pairing for sitting 0 and those for sitting 1.
fn split(words: &[i32]) -> Option<(&[i32], &[i32])>
    ensures { option_map (λ halves. (halves.0.now, halves.1.now)) result ≡ split words.now }
{
    let (count, words) = words.split_first()?;
    words.split_at_checked(usize::try_from(*count).ok()?)
}

impl<X: Chart, Y: Chart> Chart for Sittings<X, Y> {
    type Fault = Fault<X::Fault, Y::Fault>;

    ghost meaning = { λ c. together (X.Chart.meaning c.first) (Y.Chart.meaning c.second) };

    ghost lawful = { λ c. Laws.lawful (X.Chart.meaning c.first) (Y.Chart.meaning c.second) (X.Chart.lawful c.first) (Y.Chart.lawful c.second) };

    fn sections(&self) -> usize {
        self.first.sections()
    }

    fn discount(&self) -> (u32, u32) {
        self.first.discount()
    }

    fn longest(&self) -> u32 {
        if fits(&self.first, &self.second) {
            self.first.longest() + self.second.longest() + 1
        } else {
            self.first.longest()
        }
    }

    fn apart(&self, s: usize, t: usize) -> bool {
        self.first.apart(s, t) || (fits(&self.first, &self.second) && self.second.apart(s, t))
    }

    fn weigh(
        &self,
        side: Side,
        table: &Table,
        s: usize,
        t: usize,
        words: &[i32],
    ) -> Result<u32, Fault<X::Fault, Y::Fault>> {
        if !fits(&self.first, &self.second) {
            return self.weigh_alone(side, table, s, t, words);
        }
        if !self.first.judges(s, t) || !self.second.judges(s, t) {
            return Err(Fault::Unjudged);
        }
        match side {
            Side::Upper => self.weigh_pairing(table, s, t, words),
            Side::Lower => self.weigh_potentials(table, s, t, words),
        }
    }
}
