ghost use Rattle.std.specs.Prelude.{Some};
ghost use Rattle.sittings.specs.Lines.{misfit_text};

use std::fmt;

/// Two charts that are no two sittings of one test, handed back.
#[derive(Drop, Debug)]
pub struct Misfit<X, Y> {
    /// The chart of sitting 0.
    pub first: X,
    /// The chart of sitting 1.
    pub second: Y,
}

impl<X, Y> fmt::Display for Misfit<X, Y> {
    ghost output = { λ misfit. Some misfit_text };

    fn fmt<W: fmt::Write>(&self, f: &mut fmt::Formatter<W>) -> fmt::Result {
        write!(
            f,
            "12 (the two charts differ in their sections or discount, or their showings are too long together)"
        )
    }
}
