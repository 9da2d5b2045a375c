ghost use Rattle.std.specs.Prelude.{◌≡◌, MatchResult};
ghost use Rattle.choice.specs.View.{system};
ghost use Rattle.choice.specs.Reading.{system_in, read_answer, fresh_system};

use crate::charts::Choice;
use crate::charts::masks::{find_mask, read_masks};
use chart::table::SECTIONS;
use files::file::ChartFile;
use files::kind::Kind;
use files::refusal::ReadRefusal;

impl Choice {
    /// A chart of one section of band 0 with a route to itself, and discount 1/2.
    pub fn fresh() -> Choice
        ensures { system result ≡ fresh_system }
    {
        let mut masks = [0; SECTIONS];
        masks[0] = 1;
        Choice {
            n: 1,
            a: 1,
            b: 2,
            bands: [0; SECTIONS],
            masks,
        }
    }

    /// Reads a file. It answers how many sections the chart now has; a refused read leaves the chart as it was.
    pub fn read(&mut self, bytes: &[u8]) -> Result<usize, ReadRefusal>
        ensures answer { result ≡ read_answer bytes.now }
        ensures chart { MatchResult result (λ _. system self.new ≡ system_in bytes.now) (λ _. self.new ≡ self.old) }
    {
        let file = ChartFile::new(bytes, Kind::Choice)?;
        let header = file.header;
        let masks = read_masks(&file);
        if let Some(s) = find_mask(&file, &masks) {
            return Err(ReadRefusal::Mask(s));
        }
        *self = Choice {
            n: header.sections,
            a: header.numerator,
            b: header.denominator,
            bands: file.bands(),
            masks,
        };
        Ok(header.sections)
    }
}
