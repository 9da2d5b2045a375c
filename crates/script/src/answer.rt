ghost use Rattle.std.specs.Prelude.{Some};
ghost use Rattle.script.specs.Lines.{answer_text};

use history::verdict::Verdict;
use std::fmt;

/// What a command answers.
#[derive(Clone, Copy, PartialEq, Eq, Debug)]
pub enum Answer {
    /// A call is accepted, and answers this count.
    Count(u32),
    /// An ask is accepted: the lower entry, the upper entry, and what they say.
    Entries(u32, u32, Verdict),
    /// A showing is weighed, and this is its strongest claim.
    Claim(u32),
}

impl fmt::Display for Answer {
    ghost output = { λ a. Some (answer_text a) };

    fn fmt<W: fmt::Write>(&self, f: &mut fmt::Formatter<W>) -> fmt::Result {
        match self {
            Answer::Count(n) => write!(f, "= {n}"),
            Answer::Entries(lower, upper, verdict) => write!(f, "= {lower} {upper} {verdict}"),
            Answer::Claim(claim) => write!(f, "= {claim}"),
        }
    }
}
