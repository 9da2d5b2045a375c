ghost use Rattle.std.specs.Prelude.{◌≡◌, MatchResult};
ghost use Rattle.chain.specs.Registers.{RegistersBound, SettledIsDistance, EntriesBoundDistance};
ghost use Rattle.weighted.specs.View.{chain};
ghost use Rattle.weighted.specs.Reading.{chain_in, read_answer, fresh_chain};

use crate::charts::Weighted;
use crate::charts::rows::{find_row, read_rows};
use chart::table::SECTIONS;
use files::file::ChartFile;
use files::kind::Kind;
use files::refusal::ReadRefusal;

impl Weighted {
    /// A chart of one section of band 0 with a route to itself, discount 1/2 and 1 part.
    pub fn fresh() -> Weighted
        ensures { chain result ≡ fresh_chain }
    {
        let mut rows = [[0; SECTIONS]; SECTIONS];
        rows[0][0] = 1;
        Weighted {
            n: 1,
            a: 1,
            b: 2,
            whole: 1,
            bands: [0; SECTIONS],
            rows,
        }
    }

    /// Reads a file. It answers how many sections the chart now has; a refused read leaves the chart as it was.
    pub fn read(&mut self, bytes: &[u8]) -> Result<usize, ReadRefusal>
        ensures answer { result ≡ read_answer bytes.now }
        ensures chart { MatchResult result (λ _. chain self.new ≡ chain_in bytes.now) (λ _. self.new ≡ self.old) }
        ensures bounds { RegistersBound (chain self.new) }
        ensures settled { SettledIsDistance (chain self.new) }
        ensures between { EntriesBoundDistance (chain self.new) }
    {
        let file = ChartFile::new(bytes, Kind::Weighted)?;
        let header = file.header;
        let rows = read_rows(&file);
        if let Some(s) = find_row(&file, &rows) {
            return Err(ReadRefusal::Row(s));
        }
        *self = Weighted {
            n: header.sections,
            a: header.numerator,
            b: header.denominator,
            whole: header.whole,
            bands: file.bands(),
            rows,
        };
        Ok(header.sections)
    }
}
