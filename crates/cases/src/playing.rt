ghost use Rattle.std.specs.Prelude.{◌≡◌};
ghost use Rattle.files.specs.Kinds.{kind_named};
ghost use Rattle.cases.specs.Files.{read_answer};

use crate::cases::{Case, ChartName};
use crate::charts::{read_four, read_three, read_widest};
use chart::kind::Chart;
use chart::top::Top;
use choice::charts::Choice;
use commands::line::read_line;
use files::kind::Kind;
use files::refusal::ReadRefusal;
use register::register::Register;
use script::play::play;
use sittings::two::Sittings;
use std::alloc::Global;
use std::fmt::Display;
use std::io;
use std::io::Write;
use weighted::charts::Weighted;

/// Writes what a case asks, and what that comes to.
pub(crate) fn write_case<W: Write>(heap: Global, case: Case, out: &mut W) -> io::Result<()> {
    match case {
        Case::Calls { chart, top, script } => {
            writeln!(out, "# {}, top {top}", title(chart))?;
            match Top::new(u64::from(top)) {
                Ok(top) => write_calls(heap, chart, top, script, out),
                Err(refusal) => writeln!(out, "refused {refusal}"),
            }
        }
        Case::File(bytes) => {
            writeln!(out, "# a file of {} bytes", bytes.len())?;
            match read_file(bytes) {
                Ok(sections) => writeln!(out, "= {sections} sections"),
                Err(refusal) => writeln!(out, "refused {refusal}"),
            }
        }
        Case::Top(number) => {
            writeln!(out, "# the number {number}")?;
            match Top::new(u64::from(number)) {
                Ok(top) => writeln!(out, "= {}", top.value()),
                Err(refusal) => writeln!(out, "refused {refusal}"),
            }
        }
    }
}

/// What is written of a chart.
fn title(chart: ChartName) -> &'static str {
    match chart {
        ChartName::Four => "the weighted chart of four sections",
        ChartName::FourTwice => "the weighted chart of four sections, sat twice",
        ChartName::Three => "the choice chart of three sections",
        ChartName::Widest => "the choice chart of 32 sections",
    }
}

/// Reads a file as the kind of chart that it names, and answers how many sections the chart has.
fn read_file(bytes: &[u8]) -> Result<usize, ReadRefusal>
    ensures { result ≡ read_answer (kind_named bytes.now) bytes.now }
{
    match Kind::of(bytes) {
        Some(Kind::Choice) => Choice::fresh().read(bytes),
        Some(Kind::Weighted) | None => Weighted::fresh().read(bytes),
    }
}

/// Plays the lines of a script on a fresh register over the named chart, and writes each with what it comes to.
fn write_calls<W: Write>(
    heap: Global,
    chart: ChartName,
    top: Top,
    script: &str,
    out: &mut W,
) -> io::Result<()> {
    match chart {
        ChartName::Four => play_script(heap, read_four(), top, script, out),
        ChartName::FourTwice => match Sittings::new(read_four(), read_four()) {
            Ok(chart) => play_script(heap, chart, top, script, out),
            Err(misfit) => writeln!(out, "refused {misfit}"),
        },
        ChartName::Three => play_script(heap, read_three(), top, script, out),
        ChartName::Widest => play_script(heap, read_widest(), top, script, out),
    }
}

/// Does so for a chart at hand.
fn play_script<C: Chart + Drop, W: Write>(
    heap: Global,
    chart: C,
    top: Top,
    script: &str,
    out: &mut W,
) -> io::Result<()>
where
    C::Fault: Display + Drop,
{
    let mut register = Register::new(chart, top);
    let mut words = Vec::new(heap);
    for line in script.lines() {
        match read_line(line.as_bytes(), &mut words) {
            Ok(Some(command)) => match play(&mut register, command, words.as_slice()) {
                Ok(answer) => writeln!(out, "{line} {answer}")?,
                Err(rejection) => writeln!(out, "{line} {rejection}")?,
            },
            Ok(None) => {}
            Err(wrong) => writeln!(out, "{line}: {wrong}")?,
        }
    }
    Ok(())
}
