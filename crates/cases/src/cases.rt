ghost use Rattle.std.specs.Prelude.{◌≡◌, map};
ghost use Rattle.cases.specs.Cases.{EveryCaseHolds, cases};
ghost use Rattle.cases.specs.Scripts.{question, asked};

use crate::chart_files::{FOUR, OF_33, OF_NO_DISCOUNT, THREE, WIDEST};

/// The charts of the cases.
#[derive(Clone, Copy)]
pub enum ChartName {
    /// The weighted chart of four sections.
    Four,
    /// Two sittings of a test, both under that chart.
    FourTwice,
    /// The choice chart of three sections.
    Three,
    /// The choice chart of 32 sections.
    Widest,
}

/// What a case asks.
#[derive(Clone, Copy)]
pub enum Case {
    /// What do the calls of these lines come to, on a fresh register over the chart and the top?
    Calls {
        chart: ChartName,
        top: u32,
        script: &'static str,
    },
    /// What is a file with these bytes read as?
    File(&'static [u8]),
    /// Is the number a top?
    Top(u32),
}

const CASES: [Case; 21] = [
    Case::Calls {
        chart: ChartName::Four,
        top: 30,
        script: "ask 0 3\nask 0 1",
    },
    Case::Calls {
        chart: ChartName::Four,
        top: 30,
        script: "open upper\nclaim 0 3 6\nclose\nshow 0 3 0 3 3 1 3 1",
    },
    Case::Calls {
        chart: ChartName::Four,
        top: 30,
        script: "open upper\nclaim 0 3 5\nclose\nshow 0 3 0 3 3 1 3 1",
    },
    Case::Calls {
        chart: ChartName::Four,
        top: 30,
        script: "open upper\nclaim 0 2 5\nclose\nshow 0 2 0 1 1 0 2 2 1 1 1",
    },
    Case::Calls {
        chart: ChartName::Four,
        top: 30,
        script: "open upper\nclaim 0 2 5\nclaim 1 1 0\nclose\nshow 0 2 0 1 1 0 2 2 1 1 1",
    },
    Case::Calls {
        chart: ChartName::Four,
        top: 30,
        script: "open lower\nclaim 0 3 6\nclose\nshow 0 3 6 30 0 0 0 0 0 0",
    },
    Case::Calls {
        chart: ChartName::Four,
        top: 30,
        script: "open lower\nclaim 0 3 7\nclose\nshow 0 3 7 30 0 0 0 0 0 0",
    },
    Case::Calls {
        chart: ChartName::Four,
        top: 30,
        script: "open lower\nclaim 0 3 6\nclose\nshow 0 3 7 30 0 0 0 0 0 0",
    },
    Case::Calls {
        chart: ChartName::Four,
        top: 30,
        script: "open lower\nclaim 0 2 5\nclose\nshow 0 2 5 -25 0 0 0 25 0 0",
    },
    Case::Calls {
        chart: ChartName::Four,
        top: 30,
        script: "open upper\nclaim 0 3 6\nclose\nshow 0 3 0 3 4",
    },
    Case::Calls {
        chart: ChartName::FourTwice,
        top: 30,
        script: "open upper\nclaim 0 3 6\nclose\nshow 0 3 6 0 3 3 1 3 1 0 3 3 1 3 1",
    },
    Case::Calls {
        chart: ChartName::Three,
        top: 8,
        script: "open upper\nclaim 0 2 3\nclose\nshow 0 2 0 2 1 2",
    },
    Case::Calls {
        chart: ChartName::Widest,
        top: 1_000_000_000,
        script: "open upper\nclaim 0 31 999000000\nclose\nshow 0 31 0 0",
    },
    Case::Calls {
        chart: ChartName::Widest,
        top: 1_000_000_000,
        script: "open upper\nclaim 0 31 998999999\nclose\nshow 0 31 0 0",
    },
    Case::File(&FOUR),
    Case::File(&THREE),
    Case::File(&WIDEST),
    Case::File(&OF_33),
    Case::File(&OF_NO_DISCOUNT),
    Case::Top(1_000_000_000),
    Case::Top(1_000_000_001),
];

/// The worked cases.
pub fn worked_cases() -> [Case; 21]
    ensures hold { EveryCaseHolds cases }
    ensures ask { map asked result ≡ map question cases }
{
    CASES
}
