ghost use Rattle.weighted.specs.View.{chain};
ghost use Rattle.choice.specs.View.{system};
ghost use Rattle.cases.specs.Charts.{SameChain, SameSystem, four, three, widest};

use crate::chart_files::{FOUR, THREE, WIDEST};
use choice::charts::Choice;
use weighted::charts::Weighted;

/// The chart of the file `FOUR`, which is not refused.
pub fn read_four() -> Weighted
    ensures { SameChain (chain result) four }
{
    let mut chart = Weighted::fresh();
    match chart.read(&FOUR) {
        Ok(_) => chart,
        Err(_) => unreachable!(),
    }
}

/// The chart of the file `THREE`, which is not refused.
pub fn read_three() -> Choice
    ensures { SameSystem (system result) three }
{
    let mut chart = Choice::fresh();
    match chart.read(&THREE) {
        Ok(_) => chart,
        Err(_) => unreachable!(),
    }
}

/// The chart of the file `WIDEST`, which is not refused.
pub fn read_widest() -> Choice
    ensures { SameSystem (system result) widest }
{
    let mut chart = Choice::fresh();
    match chart.read(&WIDEST) {
        Ok(_) => chart,
        Err(_) => unreachable!(),
    }
}
