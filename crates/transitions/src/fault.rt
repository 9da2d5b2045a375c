ghost use Rattle.std.specs.Prelude.{◌≡◌, Some};
ghost use Rattle.transitions.specs.Faults.{number_of, place_of};
ghost use Rattle.transitions.specs.Lines.{line};

use std::fmt;

/// Why a showing is not valid on a choice chart, with the place of what is wrong.
#[derive(Clone, Copy, PartialEq, Eq, Debug)]
pub enum Fault {
    /// The pair is apart, or has a section that the chart has not.
    Unjudged,
    /// A pairing has a number of words, this one, that is odd or above 2,048.
    PairingCount(usize),
    /// The word at this place names no successor of the section on its side.
    NoSuccessor(usize),
    /// This successor of the first section is in no pair.
    FirstUnpaired(usize),
    /// This successor of the second section is in no pair.
    SecondUnpaired(usize),
    /// Potentials have a number of words, this one, that is not three.
    PotentialsCount(usize),
    /// The side is not 0 or 1.
    NoSide,
    /// The section is no successor of the section on its side.
    NoSection,
    /// The floor is not from 0 to the top.
    NoFloor,
    /// The entry of the section with this successor of the other side is below the floor.
    Below(usize),
}

impl Fault {
    /// The number of the check that fails.
    pub fn number(&self) -> u16
        ensures { result ≡ number_of self.now }
    {
        match *self {
            Fault::Unjudged => 100,
            Fault::PairingCount(_) => 121,
            Fault::NoSuccessor(_) => 122,
            Fault::FirstUnpaired(_) => 123,
            Fault::SecondUnpaired(_) => 124,
            Fault::PotentialsCount(_) => 131,
            Fault::NoSide => 132,
            Fault::NoSection => 133,
            Fault::NoFloor => 134,
            Fault::Below(_) => 135,
        }
    }

    /// The place where it fails.
    pub fn place(&self) -> usize
        ensures { result ≡ place_of self.now }
    {
        match *self {
            Fault::Unjudged | Fault::NoSide => 0,
            Fault::NoSection => 1,
            Fault::NoFloor => 2,
            Fault::PairingCount(count) | Fault::PotentialsCount(count) => count,
            Fault::NoSuccessor(word) => word,
            Fault::FirstUnpaired(section)
            | Fault::SecondUnpaired(section)
            | Fault::Below(section) => section,
        }
    }
}

impl fmt::Display for Fault {
    ghost output = { λ f. Some (line f) };

    fn fmt<W: fmt::Write>(&self, f: &mut fmt::Formatter<W>) -> fmt::Result {
        match *self {
            Fault::Unjudged => write!(
                f,
                "100 0 (the pair is apart, or has a section that the chart has not)"
            ),
            Fault::PairingCount(k) => write!(
                f,
                "121 {k} (a pairing cannot have {k} words: it has pairs, at most 1,024)"
            ),
            Fault::NoSuccessor(i) => write!(f, "122 {i} (word {i} names no successor)"),
            Fault::FirstUnpaired(u) => write!(
                f,
                "123 {u} (successor {u} of the first section is in no pair)"
            ),
            Fault::SecondUnpaired(v) => write!(
                f,
                "124 {v} (successor {v} of the second section is in no pair)"
            ),
            Fault::PotentialsCount(k) => write!(
                f,
                "131 {k} (potentials cannot have {k} words: they have three)"
            ),
            Fault::NoSide => write!(f, "132 0 (the side is not 0 or 1)"),
            Fault::NoSection => write!(f, "133 1 (the section is no successor on its side)"),
            Fault::NoFloor => write!(f, "134 2 (the floor is not from 0 to the top)"),
            Fault::Below(y) => write!(
                f,
                "135 {y} (the entry with successor {y} of the other section is below the floor)"
            ),
        }
    }
}
