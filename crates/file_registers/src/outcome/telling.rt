ghost use Rattle.std.specs.Prelude.{◌≡◌, true, false, [], ◌∷◌};
ghost use Rattle.register.specs.Calls.{asked, counted};
ghost use Rattle.file_registers.specs.Faults.{sitting_number as number_of_sitting};
ghost use Rattle.file_registers.specs.Outcomes.{call_outcome, in_numbers, not_made_numbers, reading_numbers, refusal_outcome, verdict_number, weighing_outcome};

use crate::faults::{Numbered, Sitting};
use crate::outcome::Outcome;
use crate::registers::NotMade;
use files::refusal::ReadRefusal;
use history::refusal::Refusal;
use history::verdict::Verdict;

impl Outcome {
    /// An answer of one number.
    pub fn answer(answer: u32) -> Outcome
        ensures { in_numbers result ≡ (true, answer ∷ []) }
    {
        Outcome {
            accepted: true,
            count: 1,
            numbers: [answer.into(), 0, 0, 0],
        }
    }

    /// A refusal that carries nothing.
    pub fn refusal(number: u16) -> Outcome
        ensures { in_numbers result ≡ (false, number ∷ []) }
    {
        Outcome {
            accepted: false,
            count: 1,
            numbers: [number.into(), 0, 0, 0],
        }
    }

    /// A refusal that carries a number.
    fn refusal_with(number: u16, carried: u64) -> Outcome
        ensures { in_numbers result ≡ (false, number ∷ carried ∷ []) }
    {
        Outcome {
            accepted: false,
            count: 2,
            numbers: [number.into(), carried, 0, 0],
        }
    }

    /// A refusal that carries two numbers.
    fn refusal_with_two(number: u16, first: u64, second: u64) -> Outcome
        ensures { in_numbers result ≡ (false, number ∷ first ∷ second ∷ []) }
    {
        Outcome {
            accepted: false,
            count: 3,
            numbers: [number.into(), first, second, 0],
        }
    }

    /// Why no register is made.
    pub fn of_not_made(reason: NotMade) -> Outcome
        ensures { in_numbers result ≡ (false, not_made_numbers reason) }
    {
        match reason {
            NotMade::First(refusal) => Outcome::of_reading(refusal, Sitting::First),
            NotMade::Second(refusal) => Outcome::of_reading(refusal, Sitting::Second),
            NotMade::Top => Outcome::refusal(11),
            NotMade::Misfit => Outcome::refusal(12),
        }
    }

    /// A refused chart file: the refusal's number, its place, and of which sitting the chart was to be.
    fn of_reading(refusal: ReadRefusal, sitting: Sitting) -> Outcome
        ensures { in_numbers result ≡ (false, reading_numbers refusal (number_of_sitting sitting)) }
    {
        Outcome::refusal_with_two(
            refusal.number(),
            refusal.place() as u64,
            sitting_number(sitting),
        )
    }

    /// What a call that answers with a count comes to.
    pub(crate) fn of_call<F: Numbered>(outcome: Result<u32, Refusal<F>>) -> Outcome
    where
        F: Drop,
        ensures { in_numbers result ≡ call_outcome F.numbers (counted outcome) }
    {
        match outcome {
            Ok(count) => Outcome::answer(count),
            Err(refusal) => Outcome::of_refusal(&refusal),
        }
    }

    /// What an ask comes to.
    pub(crate) fn of_ask<F: Numbered>(outcome: Result<(u32, u32, Verdict), Refusal<F>>) -> Outcome
    where
        F: Drop,
        ensures { in_numbers result ≡ call_outcome F.numbers (asked outcome) }
    {
        match outcome {
            Ok((lower, upper, verdict)) => Outcome {
                accepted: true,
                count: 3,
                numbers: [lower.into(), upper.into(), verdict_number(verdict), 0],
            },
            Err(refusal) => Outcome::of_refusal(&refusal),
        }
    }

    /// What a weighing comes to.
    pub(crate) fn of_weighing<F: Numbered>(outcome: Result<u32, F>) -> Outcome
    where
        F: Drop,
        ensures { in_numbers result ≡ weighing_outcome F.numbers outcome }
    {
        match outcome {
            Ok(claim) => Outcome::answer(claim),
            Err(fault) => {
                let fault = fault.numbers();
                match fault.sitting {
                    None => Outcome::refusal_with(fault.number, fault.place as u64),
                    Some(sitting) => Outcome {
                        accepted: false,
                        count: 3,
                        numbers: [
                            sitting_number(sitting),
                            fault.number.into(),
                            fault.place as u64,
                            0,
                        ],
                    },
                }
            }
        }
    }

    /// What a refused call comes to.
    fn of_refusal<F: Numbered>(refusal: &Refusal<F>) -> Outcome
        ensures { in_numbers result ≡ refusal_outcome F.numbers refusal.now }
    {
        let number = refusal.number();
        match refusal {
            Refusal::Fault(fault) => {
                let fault = fault.numbers();
                match fault.sitting {
                    None => Outcome::refusal_with_two(
                        number,
                        fault.number.into(),
                        fault.place as u64,
                    ),
                    Some(sitting) => Outcome {
                        accepted: false,
                        count: 4,
                        numbers: [
                            number.into(),
                            sitting_number(sitting),
                            fault.number.into(),
                            fault.place as u64,
                        ],
                    },
                }
            }
            Refusal::Bound(_, claim) => Outcome::refusal_with(number, (*claim).into()),
            Refusal::Unshown(s, t) => Outcome::refusal_with_two(number, *s as u64, *t as u64),
            _ => Outcome::refusal(number),
        }
    }
}

/// The number of a verdict.
fn verdict_number(verdict: Verdict) -> u64
    ensures { result ≡ verdict_number verdict }
{
    match verdict {
        Verdict::Apart => 0,
        Verdict::Settled => 1,
        Verdict::Open => 2,
    }
}

/// The number of a sitting.
fn sitting_number(sitting: Sitting) -> u64
    ensures { result ≡ number_of_sitting sitting }
{
    match sitting {
        Sitting::First => 0,
        Sitting::Second => 1,
    }
}
