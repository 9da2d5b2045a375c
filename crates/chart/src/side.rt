ghost use Rattle.std.specs.Prelude.{Some};
ghost use Rattle.chart.specs.Texts.{side_text};

use std::fmt;

/// The two sides of a distance: an upper bound is shown by a pairing, a lower bound by potentials.
#[derive(Clone, Copy, PartialEq, Eq, Debug)]
pub enum Side {
    Upper,
    Lower,
}

impl fmt::Display for Side {
    ghost output = { λ side. Some (side_text side) };

    fn fmt<W: fmt::Write>(&self, f: &mut fmt::Formatter<W>) -> fmt::Result {
        match self {
            Side::Upper => write!(f, "upper"),
            Side::Lower => write!(f, "lower"),
        }
    }
}
