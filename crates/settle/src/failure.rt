use chart::top::TopRefusal;
use files::refusal::ReadRefusal;
use lines::malformed::Malformed;
use script::session::Stop;
use std::io;
use thiserror::Error;

/// Why the program ends early.
#[derive(Debug, Drop, Error)]
pub enum Failure {
    /// There are not two or three arguments.
    #[error("usage: settle CHART TOP < CALLS, or settle CHART0 CHART1 TOP < CALLS")]
    Usage,
    /// The file at this path cannot be read.
    #[error("settle: {0} cannot be read ({1})")]
    Unreadable(String, io::Error),
    /// The file at this path holds no chart.
    #[error("settle: {0} refused {1}")]
    Chart(String, ReadRefusal),
    /// The two charts are no two sittings of one test.
    #[error("settle: the two charts refused {0}")]
    Misfit(String),
    /// TOP is no top.
    #[error("settle: TOP refused {0}")]
    Top(#[from] TopRefusal),
    /// The line of this number, counted from 1, is malformed.
    #[error("settle: line {0}: {1}")]
    Line(u64, Malformed),
    /// Reading the lines or writing the answers fails, or there is no memory for it.
    #[error("settle: {0}")]
    Io(#[from] io::Error),
}

impl From<Stop> for Failure {
    fn from(stop: Stop) -> Failure {
        match stop {
            Stop::Line(number, wrong) => Failure::Line(number, wrong),
            Stop::Io(error) => Failure::Io(error),
        }
    }
}
