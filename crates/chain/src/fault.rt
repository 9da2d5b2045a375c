ghost use Rattle.std.specs.Prelude.{◌≡◌, Some};
ghost use Rattle.chain.specs.Faults.{number_of, place_of};
ghost use Rattle.chain.specs.Lines.{line};

use std::fmt;

/// Why a showing is not valid on a weighted chart, with the place of what is wrong.
#[derive(Clone, Copy, PartialEq, Eq, Debug)]
pub enum Fault {
    /// The pair is apart, or has a section that the chart has not.
    Unjudged,
    /// A pairing has a number of words, this one, that is no multiple of three or above 3,072.
    PairingCount(usize),
    /// The word at this place names no section.
    Section(usize),
    /// The word at this place is no amount from 1 to the parts of a row.
    Amount(usize),
    /// The amounts at this section do not add up to its part in the first row.
    FirstMargin(usize),
    /// The amounts at this section do not add up to its part in the second row.
    SecondMargin(usize),
    /// Potentials have a number of words, this one, that is not twice the number of sections.
    PotentialsCount(usize),
    /// The word at this place is further from 0 than the top.
    Range(usize),
    /// Two successors' potentials come above their entry: `u` times the number of sections, and `v`.
    Above(usize),
}

impl Fault {
    /// The number of the check that fails.
    pub fn number(&self) -> u16
        ensures { result ≡ number_of self.now }
    {
        match *self {
            Fault::Unjudged => 100,
            Fault::PairingCount(_) => 101,
            Fault::Section(_) => 102,
            Fault::Amount(_) => 103,
            Fault::FirstMargin(_) => 104,
            Fault::SecondMargin(_) => 105,
            Fault::PotentialsCount(_) => 111,
            Fault::Range(_) => 112,
            Fault::Above(_) => 113,
        }
    }

    /// The place where it fails.
    pub fn place(&self) -> usize
        ensures { result ≡ place_of self.now }
    {
        match *self {
            Fault::Unjudged => 0,
            Fault::PairingCount(count) | Fault::PotentialsCount(count) => count,
            Fault::Section(word) | Fault::Amount(word) | Fault::Range(word) => word,
            Fault::FirstMargin(section) | Fault::SecondMargin(section) => section,
            Fault::Above(pair) => pair,
        }
    }
}

impl fmt::Display for Fault {
    ghost output = { λ f. Some (line f) };

    fn fmt<W: fmt::Write>(&self, f: &mut fmt::Formatter<W>) -> fmt::Result {
        match *self {
            Fault::Unjudged => write!(
                f,
                "100 0 (the pair is apart, or has a section that the chart has not)"
            ),
            Fault::PairingCount(k) => write!(
                f,
                "101 {k} (a pairing cannot have {k} words: it has triples, at most 1,024)"
            ),
            Fault::Section(i) => write!(f, "102 {i} (word {i} names no section)"),
            Fault::Amount(i) => write!(
                f,
                "103 {i} (word {i} is no amount from 1 to the parts of a row)"
            ),
            Fault::FirstMargin(u) => write!(
                f,
                "104 {u} (the amounts at section {u} do not add up to its part)"
            ),
            Fault::SecondMargin(v) => write!(
                f,
                "105 {v} (the amounts at section {v} do not add up to its part in the second row)"
            ),
            Fault::PotentialsCount(k) => write!(
                f,
                "111 {k} (potentials cannot have {k} words: they have two for each section)"
            ),
            Fault::Range(i) => write!(f, "112 {i} (word {i} is further from 0 than the top)"),
            Fault::Above(i) => write!(
                f,
                "113 {i} (the potentials of the successors at place {i} add up to more than their entry)"
            ),
        }
    }
}
