//! `settle CHART TOP < CALLS`: plays a script of calls against a register of the chart, and reports every pair.
//! `settle CHART0 CHART1 TOP < CALLS` does so for a test that is sat twice, under the two charts.

#![tactic(auto)]

ghost use Rattle.std.specs.Prelude.{◌≡◌, ℕ, Some, MatchResult};
ghost use Rattle.chart.specs.Tops.{InRange};
ghost use Rattle.lines.specs.Numerals.{number_of};

mod failure;

use chart::kind::Chart;
use chart::top::{Top, TopRefusal};
use failure::Failure;
use file_charts::charts::FileChart;
use lines::numerals::read_number;
use register::register::Register;
use script::session::play_script;
use script::writing::write_report;
use sittings::two::Sittings;
use std::fmt::Display;
use std::fs::File;
use std::io::{BufRead, BufReader, BufWriter, Read, Write};
use std::process::ExitCode;
use std::{env, io};

/// More bytes than any chart file has.
const TOO_LONG: u64 = 65_536;

/// What the arguments name: a chart, or the two charts of a test that is sat twice, and the top.
struct Arguments {
    chart: String,
    second: Option<String>,
    top: String,
}

impl Arguments {
    fn read(rt: &HostRuntime) -> Result<Arguments, Failure> {
        let mut all = env::args(rt)?;
        let _program = all.next();
        let (Some(chart), Some(next)) = (all.next(), all.next()) else {
            return Err(Failure::Usage);
        };
        match (all.next(), all.next()) {
            (None, _) => Ok(Arguments {
                chart,
                second: None,
                top: next,
            }),
            (Some(top), None) => Ok(Arguments {
                chart,
                second: Some(next),
                top,
            }),
            _ => Err(Failure::Usage),
        }
    }
}

/// The bytes of a file, or so many of them that it cannot be a chart's.
fn file_bytes(rt: &HostRuntime, path: &str) -> io::Result<Vec<u8>> {
    let mut bytes = Vec::new(rt.alloc());
    File::open(rt, path)?
        .take(TOO_LONG)
        .read_to_end(&mut bytes)?;
    Ok(bytes)
}

/// The chart in a file.
fn read_chart(rt: &HostRuntime, path: String) -> Result<FileChart, Failure> {
    // Not `map_err`: its closure would take the path, which the next refusal names too.
    let bytes = match file_bytes(rt, path.as_str()) {
        Ok(bytes) => bytes,
        Err(error) => return Err(Failure::Unreadable(path, error)),
    };
    FileChart::read(bytes.as_slice()).map_err(|refusal| Failure::Chart(path, refusal))
}

/// The top that a text writes.
fn read_top(text: &str) -> Result<Top, Failure>
    ensures { MatchResult result (λ top. number_of text.now ≡ Some top.value) (λ _. (k : ℕ) → number_of text.now ≡ Some k → InRange k → ⊥) }
{
    let number = read_number(text.as_bytes()).ok_or(TopRefusal::OutOfRange)?;
    Ok(Top::new(u64::from(number))?)
}

/// Plays the calls of an input on a register, and writes what they come to, and then the report.
fn play_and_report<C: Chart, R: BufRead + Drop, W: Write>(
    rt: &HostRuntime,
    register: &mut Register<C>,
    input: R,
    out: &mut W,
) -> Result<(), Failure>
where
    C::Fault: Display + Drop,
{
    let outcomes = play_script(rt.alloc(), register, input, out)?;
    Ok(write_report(rt.alloc(), register, outcomes, out)?)
}

/// Plays the calls of standard input on a register of a chart, and writes the report.
fn play_calls<C: Chart + Drop>(rt: &HostRuntime, chart: C, top: Top) -> Result<(), Failure>
where
    C::Fault: Display + Drop,
{
    let mut register = Register::new(chart, top);
    let input = BufReader::new(rt.alloc(), rt.stdin())?;
    let mut out = BufWriter::new(rt.alloc(), rt.stdout())?;
    let ended = play_and_report(rt, &mut register, input, &mut out);
    // Where it fails, what was done before is printed too; that this cannot be written is told first.
    out.flush()?;
    ended
}

/// Plays them for a test that is sat under one chart and then under another.
fn play_both(
    rt: &HostRuntime,
    first: FileChart,
    second: FileChart,
    top: Top,
) -> Result<(), Failure> {
    match Sittings::new(first, second) {
        Ok(chart) => play_calls(rt, chart, top),
        Err(misfit) => {
            let words = format!(in rt.alloc(); "{misfit}").map_err(io::Error::from)?;
            Err(Failure::Misfit(words))
        }
    }
}

fn run(rt: &HostRuntime) -> Result<(), Failure> {
    let Arguments { chart, second, top } = Arguments::read(rt)?;
    let chart = read_chart(rt, chart)?;
    let second = match second {
        Some(path) => Some(read_chart(rt, path)?),
        None => None,
    };
    let top = read_top(top.as_str())?;
    match second {
        None => play_calls(rt, chart, top),
        Some(second) => play_both(rt, chart, second, top),
    }
}

fn main(rt: HostRuntime) -> ExitCode {
    match run(&rt) {
        Ok(()) => ExitCode::SUCCESS,
        Err(failure) => {
            let _ = eprintln!(rt; "{failure}");
            ExitCode::FAILURE
        }
    }
}
