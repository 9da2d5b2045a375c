use crate::failure::Failure;
use crate::making::{make, read_bytes, read_top};
use crate::register_of::RegisterOf;
use chart::kind::Chart;
use chart::top::Top;
use choice::charts::Choice;
use register::register::Register;
use script::report::Outcomes;
use std::alloc::Global;
use std::io::{BufRead, Write};
use std::{mem, str};
use weighted::charts::Weighted;

/// What a trial has in hand: a chart of each kind, and a register with the counts of its calls.
#[derive(Drop)]
pub(crate) struct InHand {
    weighted: Weighted,
    choice: Choice,
    register: RegisterOf,
    outcomes: Outcomes,
}

impl InHand {
    /// Fresh charts, and a register of a fresh weighted chart over the top 1.
    pub(crate) fn new() -> Result<InHand, Failure> {
        Ok(InHand {
            weighted: Weighted::fresh(),
            choice: Choice::fresh(),
            register: RegisterOf::Weighted(Register::new(Weighted::fresh(), read_top("1")?)),
            outcomes: Outcomes::default(),
        })
    }

    /// Plays the lines of the input, and writes what each comes to.
    pub(crate) fn play_lines<R: BufRead + Drop, W: Write>(
        &mut self,
        heap: Global,
        input: R,
        out: &mut W,
    ) -> Result<(), Failure> {
        let mut words = Vec::new(heap);
        for line in input.split(heap, b'\n') {
            let line = line?;
            let line = str::from_utf8(line.as_slice()).map_err(|_| Failure::Trial)?;
            self.play_line(heap, line, &mut words, out)?;
        }
        Ok(())
    }

    fn play_line<W: Write>(
        &mut self,
        heap: Global,
        line: &str,
        words: &mut Vec<i32>,
        out: &mut W,
    ) -> Result<(), Failure> {
        let mut fields = line.splitn(4, ' ');
        match (fields.next(), fields.next(), fields.next()) {
            (Some("read"), Some(kind), Some(file)) => self.read(heap, kind, file, out),
            (Some("tell"), Some(kind), None) => self.tell(kind, out),
            (Some("register"), Some(top), Some(shape)) => {
                let made = self.make(heap, top, shape, fields.next().unwrap_or(""));
                self.keep(made, out)
            }
            (Some("report"), None, _) => Ok(self.register.report(heap, self.outcomes, out)?),
            _ => {
                self.register
                    .play_line(heap, line, words, &mut self.outcomes, out)
            }
        }
    }

    /// Reads a file into the chart in hand of that kind.
    fn read<W: Write>(
        &mut self,
        heap: Global,
        kind: &str,
        file: &str,
        out: &mut W,
    ) -> Result<(), Failure> {
        let bytes = read_bytes(heap, file)?;
        let read = match kind {
            "weighted" => self.weighted.read(bytes.as_slice()),
            "choice" => self.choice.read(bytes.as_slice()),
            _ => return Err(Failure::Trial),
        };
        match read {
            Ok(n) => writeln!(out, "read {kind} = {n}")?,
            Err(refusal) => writeln!(
                out,
                "read {kind} refused {} {}",
                refusal.number(),
                refusal.place()
            )?,
        }
        Ok(())
    }

    /// Writes what the chart in hand of that kind tells.
    fn tell<W: Write>(&self, kind: &str, out: &mut W) -> Result<(), Failure> {
        match kind {
            "weighted" => tell(kind, &self.weighted, out),
            "choice" => tell(kind, &self.choice, out),
            _ => Err(Failure::Trial),
        }
    }

    /// A register of the chart in hand of a kind, which is then a fresh one, or of the charts of files.
    fn make(
        &mut self,
        heap: Global,
        top: &str,
        shape: &str,
        files: &str,
    ) -> Result<RegisterOf, Failure> {
        let top = read_top(top)?;
        match shape {
            "weighted" => {
                let chart = mem::replace(&mut self.weighted, Weighted::fresh());
                Ok(RegisterOf::Weighted(Register::new(chart, top)))
            }
            "choice" => {
                let chart = mem::replace(&mut self.choice, Choice::fresh());
                Ok(RegisterOf::Choice(Register::new(chart, top)))
            }
            _ => make(heap, top, shape, files),
        }
    }

    /// Keeps a register that is made, or the one that was there.
    fn keep<W: Write>(
        &mut self,
        made: Result<RegisterOf, Failure>,
        out: &mut W,
    ) -> Result<(), Failure> {
        match made {
            Ok(register) => {
                writeln!(out, "register = {}", register.sections())?;
                self.register = register;
                self.outcomes = Outcomes::default();
                Ok(())
            }
            Err(Failure::NotMade(refusal)) => Ok(writeln!(out, "register refused {refusal}")?),
            Err(failure) => Err(failure),
        }
    }
}

/// Writes what a chart tells: n, the discount, the longest showing, and which pairs are apart, by the first section and then the second.
fn tell<C: Chart, W: Write>(kind: &str, chart: &C, out: &mut W) -> Result<(), Failure> {
    let n = chart.sections();
    let (a, b) = chart.discount();
    write!(out, "tell {kind} = {n} {a} {b} {} ", chart.longest())?;
    for s in 0..n {
        for t in 0..n {
            write!(out, "{}", u8::from(chart.apart(s, t)))?;
        }
    }
    Ok(writeln!(out)?)
}
