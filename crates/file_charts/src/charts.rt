ghost use Rattle.std.specs.Prelude.{◌≡◌, IfOk};
ghost use Rattle.files.specs.Kinds.{kind_named};
ghost use Rattle.file_charts.specs.Meaning.{means};
ghost use Rattle.file_charts.specs.Reading.{ReadAs};
ghost use Rattle.file_charts.specs.Registers.{EntriesBoundDistance, RegistersBound, SettledIsDistance};
ghost use Rattle.file_charts.specs.Soundness.{sound};

use crate::fault::FileFault;
use chart::kind::Chart;
use chart::side::Side;
use chart::table::Table;
use choice::charts::Choice;
use files::kind::Kind;
use files::refusal::ReadRefusal;
use weighted::charts::Weighted;

/// A chart of the kind that a file names.
#[derive(Drop)]
pub enum FileChart {
    Weighted(Weighted),
    Choice(Choice),
}

impl FileChart {
    /// The chart in a file with these bytes. A file of neither kind is refused as a weighted one.
    pub fn read(bytes: &[u8]) -> Result<FileChart, ReadRefusal>
        ensures answer { ReadAs (kind_named bytes.now) bytes.now result }
        ensures bounds { IfOk result RegistersBound }
        ensures settled { IfOk result SettledIsDistance }
        ensures between { IfOk result EntriesBoundDistance }
    {
        match Kind::of(bytes) {
            Some(Kind::Choice) => {
                let mut chart = Choice::fresh();
                chart.read(bytes)?;
                Ok(FileChart::Choice(chart))
            }
            Some(Kind::Weighted) | None => {
                let mut chart = Weighted::fresh();
                chart.read(bytes)?;
                Ok(FileChart::Weighted(chart))
            }
        }
    }
}

impl Chart for FileChart {
    type Fault = FileFault;

    ghost meaning = { means };

    ghost lawful = { sound };

    fn sections(&self) -> usize {
        match self {
            FileChart::Weighted(chart) => chart.sections(),
            FileChart::Choice(chart) => chart.sections(),
        }
    }

    fn discount(&self) -> (u32, u32) {
        match self {
            FileChart::Weighted(chart) => chart.discount(),
            FileChart::Choice(chart) => chart.discount(),
        }
    }

    fn longest(&self) -> u32 {
        match self {
            FileChart::Weighted(chart) => chart.longest(),
            FileChart::Choice(chart) => chart.longest(),
        }
    }

    fn apart(&self, s: usize, t: usize) -> bool {
        match self {
            FileChart::Weighted(chart) => chart.apart(s, t),
            FileChart::Choice(chart) => chart.apart(s, t),
        }
    }

    fn weigh(
        &self,
        side: Side,
        table: &Table,
        s: usize,
        t: usize,
        words: &[i32],
    ) -> Result<u32, FileFault> {
        match self {
            FileChart::Weighted(chart) => Ok(chart.weigh(side, table, s, t, words)?),
            FileChart::Choice(chart) => Ok(chart.weigh(side, table, s, t, words)?),
        }
    }
}
