//! What comes of a script, in writing.
ghost use Rattle.std.specs.Prelude.{OnOk, IfSome};
ghost use Rattle.std.specs.Io.KnownBytes.{Appends};
ghost use Rattle.register.specs.Held.{chart_of, held};
ghost use Rattle.script.specs.Lines.{outcome_line, report_text, rows_text};
ghost use Rattle.script.specs.Report.{rows_of};

use crate::answer::Answer;
use crate::rejection::Rejection;
use crate::report::{Outcomes, Row, rows, tally};
use chart::kind::Chart;
use commands::command::Command;
use register::register::Register;
use std::alloc::Global;
use std::fmt::Display;
use std::io;
use std::io::Write;

/// Writes a command and what it comes to, as a line.
pub fn write_outcome<F: Display + Drop, W: Write>(
    out: &mut W,
    command: Command,
    outcome: Result<Answer, Rejection<F>>,
) -> io::Result<()>
    ensures { OnOk result (IfSome (outcome_line F.Display.output command outcome) (Appends (W.Write.contents out.old) (W.Write.contents out.new))) }
{
    match outcome {
        Ok(answer) => writeln!(out, "{command} {answer}"),
        Err(rejection) => writeln!(out, "{command} {rejection}"),
    }
}

/// Writes the rows of the report, a line each.
fn write_rows<W: Write>(out: &mut W, rows: &[Row]) -> io::Result<()>
    ensures { OnOk result (Appends (W.Write.contents out.old) (W.Write.contents out.new) (rows_text rows.now)) }
{
    for row in rows {
        writeln!(out, "{row}")?;
    }
    Ok(())
}

/// Writes the report: the rows of all pairs, and then how many calls and pairs there are of each sort.
pub fn write_report<C: Chart, W: Write>(
    heap: Global,
    register: &Register<C>,
    outcomes: Outcomes,
    out: &mut W,
) -> io::Result<()>
where
    C::Fault: Drop,
    ensures { OnOk result (Appends (W.Write.contents out.old) (W.Write.contents out.new) (report_text (rows_of (C.Chart.meaning (chart_of register.now)) (held register.now)) outcomes)) }
{
    let rows = rows(register, heap)?;
    write_rows(out, rows.as_slice())?;
    writeln!(out, "{outcomes}")?;
    writeln!(out, "{}", tally(rows.as_slice()))
}
