ghost use Rattle.std.specs.Prelude.{IfOk};
ghost use Rattle.file_registers.specs.Making.{DistanceIsBounded, MadeOfOne, MadeOfTwo};

use crate::registers::{FileRegister, NotMade};
use chart::top::Top;
use file_charts::charts::FileChart;
use register::register::Register;
use sittings::two::Sittings;

impl FileRegister {
    /// A fresh register over the chart in a file with these bytes, and over a top of that number.
    pub fn of_one(bytes: &[u8], top: u64) -> Result<FileRegister, NotMade>
        ensures made { MadeOfOne bytes.now top result }
        ensures distance { IfOk result DistanceIsBounded }
    {
        let chart = FileChart::read(bytes).map_err(NotMade::First)?;
        let top = Top::new(top).map_err(|_| NotMade::Top)?;
        Ok(FileRegister::One(Register::new(chart, top)))
    }

    /// The same for a test that is sat twice, under the charts in two files.
    pub fn of_two(first: &[u8], second: &[u8], top: u64) -> Result<FileRegister, NotMade>
        ensures { MadeOfTwo first.now second.now top result }
    {
        let first = FileChart::read(first).map_err(NotMade::First)?;
        let second = FileChart::read(second).map_err(NotMade::Second)?;
        let top = Top::new(top).map_err(|_| NotMade::Top)?;
        let chart = Sittings::new(first, second).map_err(|_| NotMade::Misfit)?;
        Ok(FileRegister::Two(Register::new(chart, top)))
    }
}
