ghost use Rattle.std.specs.Prelude.{Some};
ghost use Rattle.history.specs.Lines.{verdict_text};

use std::fmt;

/// What the two entries of a pair of sections say.
#[derive(Clone, Copy, PartialEq, Eq, Debug)]
pub enum Verdict {
    /// The sections are apart: their distance is 1.
    Apart,
    /// The two entries are equal: they are the distance.
    Settled,
    /// The lower entry is below the upper one.
    Open,
}

impl fmt::Display for Verdict {
    ghost output = { λ v. Some (verdict_text v) };

    fn fmt<W: fmt::Write>(&self, f: &mut fmt::Formatter<W>) -> fmt::Result {
        match self {
            Verdict::Apart => write!(f, "apart"),
            Verdict::Settled => write!(f, "settled"),
            Verdict::Open => write!(f, "open"),
        }
    }
}
