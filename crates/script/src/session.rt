//! Scripts: the lines of commands that are played against a register, one after another.
ghost use Rattle.std.specs.Prelude.{◌≡◌, IfOk, OnOk, IfErr, IfSome, List, ℕ, Option};
ghost use Rattle.std.specs.Io.KnownBytes.{Appends};
ghost use Rattle.history.specs.Promises.{KeepsPromise};
ghost use Rattle.register.specs.Held.{chart_of, held, top_of};
ghost use Rattle.script.specs.declared.session.Stop.TheVariants.{Io};
ghost use Rattle.script.specs.Session.{Ends, Line, NextLine, StopsAt};

use crate::play::play;
use crate::report::Outcomes;
use crate::writing::write_outcome;
use chart::kind::Chart;
use commands::line::read_line;
use lines::malformed::Malformed;
use register::register::Register;
use std::alloc::Global;
use std::fmt::Display;
use std::io;
use std::io::{BufRead, ErrorKind, Write};

/// Why a script is not played to its end.
#[derive(Debug, Drop)]
pub enum Stop {
    /// The line of this number, counted from 1, is malformed.
    Line(u64, Malformed),
    /// Reading the lines or writing what comes of them fails.
    Io(io::Error),
}

impl From<io::Error> for Stop {
    ghost from_gives = { λ error stop. stop ≡ Io error };

    fn from(error: io::Error) -> Stop {
        Stop::Io(error)
    }
}

/// Reads the next line of the input in place of the last, without the line feed that ends it. Answers whether there was one.
fn next_line<R: BufRead>(input: &mut R, line: &mut Vec<u8>) -> io::Result<bool>
    ensures { IfOk result (λ more. NextLine more (R.remaining input.old) line.new.items (R.remaining input.new)) }
{
    line.clear();
    let count = input.read_until(b'\n', line)?;
    if line.last() == Some(&b'\n') {
        let _ = line.pop();
    }
    Ok(count > 0)
}

/// Reads the line of this number, and plays its command on the register, if it has one; counts what that comes to, and writes it as a line.
fn play_line<C: Chart, W: Write>(
    register: &mut Register<C>,
    outcomes: &mut Outcomes,
    words: &mut Vec<i32>,
    number: u64,
    line: &[u8],
    out: &mut W,
) -> Result<(), Stop>
where
    C::Fault: Display + Drop,
    ensures chart { chart_of register.new ≡ chart_of register.old }
    ensures top { top_of register.new ≡ top_of register.old }
    ensures line { OnOk result ((text : Option (List ℕ))
        × Line C.Fault.output (C.Chart.meaning (chart_of register.old)) (top_of register.old) line.now (held register.old) outcomes.old text (held register.new) outcomes.new
        × IfSome text (Appends (W.Write.contents out.old) (W.Write.contents out.new))) }
    ensures malformed { IfErr result (StopsAt number line.now ((register.new ≡ register.old) × (outcomes.new ≡ outcomes.old) × (out.new ≡ out.old))) }
{
    let command = read_line(line, words).map_err(|wrong| Stop::Line(number, wrong))?;
    if let Some(command) = command {
        let outcome = play(register, command, words.as_slice());
        outcomes.count(&outcome);
        write_outcome(out, command, outcome)?;
    }
    Ok(())
}

/// Plays the commands of the input against the register, and writes a line for each. Answers how many calls it accepted and refused.
pub fn play_script<C: Chart, R: BufRead + Drop, W: Write>(
    heap: Global,
    register: &mut Register<C>,
    input: R,
    out: &mut W,
) -> Result<Outcomes, Stop>
where
    C::Fault: Display + Drop,
    ensures chart { chart_of register.new ≡ chart_of register.old }
    ensures top { top_of register.new ≡ top_of register.old }
    ensures promise { KeepsPromise (C.Chart.meaning (chart_of register.new)) (top_of register.new) (held register.new) }
    ensures script { IfSome (R.remaining input) (λ bs. Ends C.Fault.output (C.Chart.meaning (chart_of register.old)) (top_of register.old) (Appends (W.Write.contents out.old) (W.Write.contents out.new)) bs (held register.old) result (held register.new)) }
{
    // One vector for all lines, and not one each, as the library's `split` has it: for short lines that took five times as long.
    let mut input = input;
    let mut line = Vec::new(heap);
    let mut words = Vec::new(heap);
    let mut outcomes = Outcomes::default();
    for played in 0..u64::MAX {
        if !next_line(&mut input, &mut line)? {
            return Ok(outcomes);
        }
        play_line(
            register,
            &mut outcomes,
            &mut words,
            played + 1,
            line.as_slice(),
            out,
        )?;
    }
    Err(Stop::Io(io::Error::from(ErrorKind::FileTooLarge)))
}
