ghost use Rattle.std.specs.Prelude.{◌≡◌, ◌≤◌, true, ◌&&◌, pos, MatchOption, nat_lt};
ghost use Rattle.finite.specs.Search.{least};
ghost use Rattle.chart.specs.Tables.{distances};
ghost use Rattle.chart.specs.Words.{outside};
ghost use Rattle.chart.specs.declared.side.Side.TheVariants.{Lower};
ghost use Rattle.transitions.specs.System.{successor};
ghost use Rattle.transitions.specs.Potentials.{own, other, facing, greatest_claim};
ghost use Rattle.transitions.specs.Meaning.{weighed};
ghost use Rattle.choice.specs.View.{system};
ghost use Rattle.choice.specs.Sides.{number};

use crate::charts::Choice;
use chart::table::Table;
use transitions::fault::Fault;

/// The side of a pair of which potentials name a successor.
#[derive(Clone, Copy)]
enum PairSide {
    First,
    Second,
}

impl PairSide {
    /// The side that a word tells.
    fn new(word: i32) -> Option<PairSide>
        ensures { MatchOption result (outside (pos 0) (pos 1) word ≡ true) (λ side. word ≡ pos (number side)) }
    {
        match word {
            0 => Some(PairSide::First),
            1 => Some(PairSide::Second),
            _ => None,
        }
    }

    /// The section on this side of a pair.
    fn own(self, s: usize, t: usize) -> usize
        ensures { result ≡ own (number self) s t }
    {
        match self {
            PairSide::First => s,
            PairSide::Second => t,
        }
    }

    /// The section on the other side.
    fn other(self, s: usize, t: usize) -> usize
        ensures { result ≡ other (number self) s t }
    {
        match self {
            PairSide::First => t,
            PairSide::Second => s,
        }
    }
}

/// The floor that a word tells, if it is from 0 to the top.
fn read_floor(word: i32, top: u32) -> Option<u32>
    ensures { MatchOption result (outside (pos 0) (pos top) word ≡ true) (λ floor. (word ≡ pos floor) × (floor ≤ top)) }
{
    u32::try_from(word).ok().filter(|floor| *floor <= top)
}

/// Potentials for a pair: a successor of the section on a side, and a floor under its distance from each successor of the other section.
#[derive(Clone, Copy)]
struct Potentials {
    side: PairSide,
    section: usize,
    floor: u32,
}

impl Potentials {
    /// The entry of the named successor with a successor of the other section.
    fn entry(&self, d: &Table, y: usize) -> u32
        ensures { result ≡ facing (distances d.now) (number self.now.side) self.now.section y }
    {
        match self.side {
            PairSide::First => d.entry(self.section, y),
            PairSide::Second => d.entry(y, self.section),
        }
    }
}

impl Choice {
    /// The first successor of the section `other` whose entry with the named one is below the floor.
    fn find_below(&self, d: &Table, other: usize, potentials: &Potentials) -> Option<usize>
        ensures { let p = potentials.now in result ≡ least self.now.n (λ y. successor (system self.now) other y && nat_lt (facing (distances d.now) (number p.side) p.section y) p.floor) }
    {
        // The successors that are not looked at yet.
        let mut rest = self.mask(other);
        while rest != 0 {
            let y = rest.trailing_zeros() as usize;
            if potentials.entry(d, y) < potentials.floor {
                return Some(y);
            }
            // Without its lowest bit, which is that of `y`.
            rest &= rest - 1;
        }
        None
    }

    /// A floor, discounted and rounded down.
    fn round_down(&self, floor: u32) -> u32
        ensures { result ≡ greatest_claim (system self.now) floor }
    {
        // `as`: it is at most the floor.
        (u64::from(self.a) * u64::from(floor) / u64::from(self.b)) as u32
    }

    /// The greatest claim that the potentials show for `(s, t)` in the table, or their first fault.
    pub(super) fn weigh_potentials(
        &self,
        d: &Table,
        s: usize,
        t: usize,
        words: &[i32],
    ) -> Result<u32, Fault>
        ensures { result ≡ weighed (system self.now) Lower (distances d.now) s t words.now }
    {
        if self.is_unjudged(s, t) {
            return Err(Fault::Unjudged);
        }
        let [side, section, floor] = words else {
            return Err(Fault::PotentialsCount(words.len()));
        };
        let side = PairSide::new(*side).ok_or(Fault::NoSide)?;
        let section = self
            .named_successor(side.own(s, t), *section)
            .ok_or(Fault::NoSection)?;
        let floor = read_floor(*floor, d.top()).ok_or(Fault::NoFloor)?;
        let potentials = Potentials {
            side,
            section,
            floor,
        };
        if let Some(y) = self.find_below(d, side.other(s, t), &potentials) {
            return Err(Fault::Below(y));
        }
        Ok(self.round_down(floor))
    }
}
