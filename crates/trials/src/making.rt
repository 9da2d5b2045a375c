use crate::failure::Failure;
use crate::register_of::{RegisterOf, Two};
use chart::kind::Chart;
use chart::top::Top;
use file_charts::charts::FileChart;
use files::refusal::ReadRefusal;
use register::register::Register;
use sittings::two::Sittings;
use std::alloc::{AllocError, Global};
use std::fmt;

/// Why a register is not made.
#[derive(Debug, Drop)]
pub(crate) enum NotMade {
    /// The top is not in range.
    Top,
    /// The file of this number, counted from 0, is refused.
    File(usize, ReadRefusal),
    /// Two charts do not fit.
    Misfit,
}

impl fmt::Display for NotMade {
    fn fmt<W: fmt::Write>(&self, f: &mut fmt::Formatter<W>) -> fmt::Result {
        match self {
            NotMade::Top => write!(f, "11"),
            NotMade::File(k, refusal) => write!(f, "{k} {} {}", refusal.number(), refusal.place()),
            NotMade::Misfit => write!(f, "12"),
        }
    }
}

/// The bytes that a field writes in hexadecimal digits, `-` for none.
pub(crate) fn read_bytes(heap: Global, field: &str) -> Result<Vec<u8>, Failure> {
    match field {
        "-" => Ok(Vec::new(heap)),
        digits => Ok(hex::decode(heap, digits)?),
    }
}

/// The top that a field writes.
pub(crate) fn read_top(field: &str) -> Result<Top, Failure> {
    let number = field.parse::<u64>().map_err(|_| Failure::Trial)?;
    Ok(Top::new(number).map_err(|_| NotMade::Top)?)
}

/// The chart in the file of number `k`.
fn read_chart(heap: Global, k: usize, field: &str) -> Result<FileChart, Failure> {
    let bytes = read_bytes(heap, field)?;
    Ok(FileChart::read(bytes.as_slice()).map_err(|refusal| NotMade::File(k, refusal))?)
}

/// Two sittings of one test.
fn both<X: Chart + Drop, Y: Chart + Drop>(first: X, second: Y) -> Result<Sittings<X, Y>, Failure> {
    Ok(Sittings::new(first, second).map_err(|_| NotMade::Misfit)?)
}

/// A register over the charts of files, put together as the shape says.
pub(crate) fn make(
    heap: Global,
    top: Top,
    shape: &str,
    files: &str,
) -> Result<RegisterOf, Failure> {
    let mut charts = Vec::new(heap);
    for (k, field) in files.split(' ').enumerate() {
        charts
            .push(read_chart(heap, k, field)?)
            .map_err(AllocError::from)?;
    }
    let mut charts = charts.into_iter();
    let mut next = || charts.next().ok_or(Failure::Trial);
    match shape {
        "x" => Ok(RegisterOf::File(Register::new(next()?, top))),
        "(xx)" => Ok(RegisterOf::Two(Register::new(both(next()?, next()?)?, top))),
        "((xx)x)" => {
            let two: Two = both(next()?, next()?)?;
            Ok(RegisterOf::TwoAndOne(Register::new(both(two, next()?)?, top)))
        }
        "(x(xx))" => {
            let first = next()?;
            let two: Two = both(next()?, next()?)?;
            Ok(RegisterOf::OneAndTwo(Register::new(both(first, two)?, top)))
        }
        _ => Err(Failure::Trial),
    }
}
