use crate::failure::Failure;
use chart::kind::Chart;
use choice::charts::Choice;
use commands::line::read_line;
use file_charts::charts::FileChart;
use register::register::Register;
use script::play::play;
use script::report::Outcomes;
use script::writing::write_report;
use sittings::two::Sittings;
use std::alloc::Global;
use std::fmt::Display;
use std::io;
use std::io::Write;
use weighted::charts::Weighted;

/// Two sittings of charts of files.
pub(crate) type Two = Sittings<FileChart, FileChart>;

/// A register over a chart of each shape that a trial has.
#[derive(Drop)]
pub(crate) enum RegisterOf {
    Weighted(Register<Weighted>),
    Choice(Register<Choice>),
    File(Register<FileChart>),
    Two(Register<Two>),
    TwoAndOne(Register<Sittings<Two, FileChart>>),
    OneAndTwo(Register<Sittings<FileChart, Two>>),
}

/// The same for a register of each shape.
macro_rules! with_register {
    ($registers:expr, $register:ident => $what:expr) => {
        match $registers {
            RegisterOf::Weighted($register) => $what,
            RegisterOf::Choice($register) => $what,
            RegisterOf::File($register) => $what,
            RegisterOf::Two($register) => $what,
            RegisterOf::TwoAndOne($register) => $what,
            RegisterOf::OneAndTwo($register) => $what,
        }
    };
}

impl RegisterOf {
    /// How many sections the chart has.
    pub(crate) fn sections(&self) -> usize {
        with_register!(self, register => register.sections())
    }

    /// Plays a command of `settle`, and writes what it comes to.
    pub(crate) fn play_line<W: Write>(
        &mut self,
        heap: Global,
        line: &str,
        words: &mut Vec<i32>,
        outcomes: &mut Outcomes,
        out: &mut W,
    ) -> Result<(), Failure> {
        with_register!(self, register => play_line(heap, register, line, words, outcomes, out))
    }

    /// Writes the report.
    pub(crate) fn report<W: Write>(
        &self,
        heap: Global,
        outcomes: Outcomes,
        out: &mut W,
    ) -> io::Result<()> {
        with_register!(self, register => write_report(heap, register, outcomes, out))
    }
}

/// Plays a command, and writes what it comes to without the words in parentheses.
fn play_line<C: Chart, W: Write>(
    heap: Global,
    register: &mut Register<C>,
    line: &str,
    words: &mut Vec<i32>,
    outcomes: &mut Outcomes,
    out: &mut W,
) -> Result<(), Failure>
where
    C::Fault: Display + Drop,
{
    let Some(command) = read_line(line.as_bytes(), words)? else {
        return Ok(());
    };
    let outcome = play(register, command, words.as_slice());
    outcomes.count(&outcome);
    let text = match outcome {
        Ok(answer) => format!(in heap; "{command} {answer}")?,
        Err(rejection) => format!(in heap; "{command} {rejection}")?,
    };
    let numbers = text.as_str().split(" (").next().unwrap_or("");
    Ok(writeln!(out, "{numbers}")?)
}
