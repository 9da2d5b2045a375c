ghost use Rattle.std.specs.Prelude.{◌≡◌, Some};
ghost use Rattle.script.specs.Lines.{row_text, outcomes_text, tally_text};
ghost use Rattle.script.specs.Report.{counted, is_accepted, is_refused};

use crate::answer::Answer;
use crate::rejection::Rejection;
use history::verdict::Verdict;
use std::fmt;

/// What the report says of a pair of sections.
#[derive(Clone, Copy, PartialEq, Eq, Debug)]
pub struct Row {
    pub s: usize,
    pub t: usize,
    pub lower: u32,
    pub upper: u32,
    pub verdict: Verdict,
}

/// How many calls the register accepted, and how many it refused.
#[derive(Clone, Copy, PartialEq, Eq, Debug, Default)]
pub struct Outcomes {
    pub accepted: u64,
    pub refused: u64,
}

/// How many of the pairs are apart, settled and open.
#[derive(Clone, Copy, PartialEq, Eq, Debug)]
pub struct Tally {
    pub apart: usize,
    pub settled: usize,
    pub open: usize,
}

impl Outcomes {
    /// Counts the outcome of a command, unless it is a weighing, which is no call.
    pub fn count<F>(&mut self, outcome: &Result<Answer, Rejection<F>>)
        ensures accepted { self.new.accepted ≡ counted (is_accepted outcome.now) self.old.accepted }
        ensures refused { self.new.refused ≡ counted (is_refused outcome.now) self.old.refused }
    {
        match outcome {
            Ok(Answer::Count(_) | Answer::Entries(..)) => {
                self.accepted = self.accepted.saturating_add(1);
            }
            Err(Rejection::Refused(_)) => self.refused = self.refused.saturating_add(1),
            Ok(Answer::Claim(_)) | Err(Rejection::Fault(_)) => {}
        }
    }
}

impl fmt::Display for Row {
    ghost output = { λ row. Some (row_text row) };

    fn fmt<W: fmt::Write>(&self, f: &mut fmt::Formatter<W>) -> fmt::Result {
        let Row {
            s,
            t,
            lower,
            upper,
            verdict,
        } = self;
        write!(f, "{s} {t} {lower} {upper} {verdict}")
    }
}

impl fmt::Display for Outcomes {
    ghost output = { λ outcomes. Some (outcomes_text outcomes) };

    fn fmt<W: fmt::Write>(&self, f: &mut fmt::Formatter<W>) -> fmt::Result {
        let Outcomes { accepted, refused } = self;
        write!(f, "calls: {accepted} accepted, {refused} refused")
    }
}

impl fmt::Display for Tally {
    ghost output = { λ tally. Some (tally_text tally) };

    fn fmt<W: fmt::Write>(&self, f: &mut fmt::Formatter<W>) -> fmt::Result {
        let Tally {
            apart,
            settled,
            open,
        } = self;
        write!(f, "pairs: {apart} apart, {settled} settled, {open} open")
    }
}
