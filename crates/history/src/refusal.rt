ghost use Rattle.std.specs.Prelude.{◌≡◌, ◌++◌, Some, decimal};
ghost use Rattle.std.specs.Fmt.{DisplaysOnOk};
ghost use Rattle.history.specs.declared.refusal.Refusal.TheVariants.{Fault};
ghost use Rattle.history.specs.Lines.{limit_text, line, reason};
ghost use Rattle.history.specs.Refusals.{number};

use chart::side::Side;
use std::fmt;
use std::fmt::Display;

/// Why a call is refused.
#[derive(Drop, Debug)]
pub enum Refusal<F> {
    /// Open: a draft is open already.
    NotResting,
    /// Claim: no draft takes claims.
    NotClaiming,
    /// Claim: the chart has not both sections.
    ClaimOutside,
    /// Claim: the sections are apart.
    ClaimApart,
    /// Claim: the draft has a claim for the pair already.
    ClaimedTwice,
    /// Claim: an upper value is above the entry, or a lower one is below it or above the top.
    ClaimValue,
    /// Close: no draft takes claims.
    CloseNotClaiming,
    /// Close: the draft has no claims.
    NoClaims,
    /// Show: no draft takes showings.
    NotShowing,
    /// Show: the chart has not both sections.
    ShowOutside,
    /// Show: the draft has no claim for the pair.
    NoClaim,
    /// Show: the pair's claim is shown already.
    ShownAlready,
    /// Show: the showing is not valid, for this fault.
    Fault(F),
    /// Show: the showing is valid, and its strongest claim on the draft's side is this bound, which does not reach the pair's claim.
    Bound(Side, u32),
    /// Enter: no draft takes showings.
    EnterNotShowing,
    /// Enter: the claim of this pair, the first such by its first section and then its second, is not shown.
    Unshown(usize, usize),
    /// Abandon: no draft is open.
    Resting,
    /// Ask: the chart has not both sections.
    AskOutside,
}

impl<F> From<F> for Refusal<F> {
    ghost from_gives = { λ f r. r ≡ Fault f };

    fn from(f: F) -> Refusal<F> {
        Refusal::Fault(f)
    }
}

impl<F> Refusal<F> {
    /// The number of the refusal. The checks of a call are made by ascending numbers.
    pub fn number(&self) -> u16
        ensures { result ≡ number self.now }
    {
        match self {
            Refusal::NotResting => 20,
            Refusal::NotClaiming => 30,
            Refusal::ClaimOutside => 31,
            Refusal::ClaimApart => 32,
            Refusal::ClaimedTwice => 33,
            Refusal::ClaimValue => 34,
            Refusal::CloseNotClaiming => 40,
            Refusal::NoClaims => 41,
            Refusal::NotShowing => 50,
            Refusal::ShowOutside => 51,
            Refusal::NoClaim => 52,
            Refusal::ShownAlready => 53,
            Refusal::Fault(_) => 54,
            Refusal::Bound(_, _) => 55,
            Refusal::EnterNotShowing => 60,
            Refusal::Unshown(_, _) => 61,
            Refusal::Resting => 70,
            Refusal::AskOutside => 80,
        }
    }
}

impl<F: Display> fmt::Display for Refusal<F> {
    ghost output = { λ r. line F.Display.output r };

    fn fmt<W: fmt::Write>(&self, f: &mut fmt::Formatter<W>) -> fmt::Result {
        let number = self.number();
        match self {
            Refusal::NotResting => explain(f, number, "a draft is open"),
            Refusal::NotClaiming => explain(f, number, "no draft takes claims"),
            Refusal::ClaimOutside => explain(f, number, "the chart has not both sections"),
            Refusal::ClaimApart => explain(f, number, "the pair is apart"),
            Refusal::ClaimedTwice => explain(f, number, "the draft has a claim for the pair"),
            Refusal::ClaimValue => explain(
                f,
                number,
                "the value is looser than the entry, or above the top",
            ),
            Refusal::CloseNotClaiming => explain(f, number, "no draft takes claims"),
            Refusal::NoClaims => explain(f, number, "the draft has no claims"),
            Refusal::NotShowing => explain(f, number, "no draft takes showings"),
            Refusal::ShowOutside => explain(f, number, "the chart has not both sections"),
            Refusal::NoClaim => explain(f, number, "the draft has no claim for the pair"),
            Refusal::ShownAlready => explain(f, number, "the claim is shown already"),
            Refusal::Fault(fault) => write!(f, "{number} {fault}"),
            Refusal::Bound(side, c) => write!(f, "{number} {c} ({} {c})", limit(*side)),
            Refusal::EnterNotShowing => explain(f, number, "no draft takes showings"),
            Refusal::Unshown(s, t) => write!(
                f,
                "{number} {s} {t} (the claim for sections {s} and {t} is not shown)"
            ),
            Refusal::Resting => explain(f, number, "no draft is open"),
            Refusal::AskOutside => explain(f, number, "the chart has not both sections"),
        }
    }
}

/// What a showing's strongest claim says, in words that the claim ends.
fn limit(side: Side) -> &'static str
    ensures { result.now ≡ limit_text side }
{
    match side {
        Side::Upper => "the pairing shows no claim below",
        Side::Lower => "the potentials show no claim above",
    }
}

/// Writes a number and what is wrong, in words.
fn explain<W: fmt::Write>(f: &mut fmt::Formatter<W>, number: u16, words: &str) -> fmt::Result
    ensures { DisplaysOnOk W.Write.write_str_gives f.old result (Some (decimal number ++ reason words.now)) f.new }
{
    write!(f, "{number} ({words})")
}
