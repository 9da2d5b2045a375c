use file_charts::charts::FileChart;
use files::refusal::ReadRefusal;
use register::register::Register;
use sittings::two::Sittings;

mod calls;
mod making;

/// A register over the chart of a file, or over the two charts of a test that is sat twice.
#[derive(Drop)]
pub enum FileRegister {
    One(Register<FileChart>),
    Two(Register<Sittings<FileChart, FileChart>>),
}

/// Why no register is made.
#[derive(Clone, Copy)]
pub enum NotMade {
    /// The bytes of the chart, or of that of sitting 0, hold none.
    First(ReadRefusal),
    /// The bytes of the chart of sitting 1 hold none.
    Second(ReadRefusal),
    /// The number is no top.
    Top,
    /// The two charts are no two sittings of one test.
    Misfit,
}
