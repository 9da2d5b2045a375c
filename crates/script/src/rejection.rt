ghost use Rattle.std.specs.Prelude.{◌≡◌};
ghost use Rattle.script.specs.declared.rejection.Rejection.TheVariants.{Refused};
ghost use Rattle.script.specs.Lines.{rejection_text};

use history::refusal::Refusal;
use std::fmt;
use std::fmt::Display;

/// Why a command gets no answer.
#[derive(Drop, Debug)]
pub enum Rejection<F> {
    /// The call is refused.
    Refused(Refusal<F>),
    /// The showing that is weighed is not valid, for this fault.
    Fault(F),
}

impl<F> From<Refusal<F>> for Rejection<F> {
    ghost from_gives = { λ refusal r. r ≡ Refused refusal };

    fn from(refusal: Refusal<F>) -> Rejection<F> {
        Self::Refused(refusal)
    }
}

impl<F: Display> fmt::Display for Rejection<F> {
    ghost output = { λ r. rejection_text F.Display.output r };

    fn fmt<W: fmt::Write>(&self, f: &mut fmt::Formatter<W>) -> fmt::Result {
        match self {
            Rejection::Refused(refusal) => write!(f, "refused {refusal}"),
            Rejection::Fault(fault) => write!(f, "fault {fault}"),
        }
    }
}
