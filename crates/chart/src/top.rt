ghost use Rattle.std.specs.Prelude.{◌≤◌};

mod make;

/// A top: the whole number, from 1 to 1,000,000,000, that stands for the distance 1 in a table.
#[derive(Clone, Copy, PartialEq, Eq, Debug)]
pub struct Top {
    value: u32,
    ghost least: { 1 ≤ value },
    ghost most: { value ≤ 1000000000 },
}

/// Why a number is no top.
#[derive(Clone, Copy, PartialEq, Eq, Debug)]
pub enum TopRefusal {
    /// It is 0 or above 1,000,000,000.
    OutOfRange,
}
