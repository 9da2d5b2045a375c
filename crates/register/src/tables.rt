ghost use Rattle.std.specs.Prelude.{◌≡◌};
ghost use Rattle.chart.specs.Tables.{distances};

use chart::table::Table;

mod sides;

/// An upper and a lower table over one top.
#[derive(Drop)]
pub struct Tables {
    upper: Table,
    lower: Table,
    ghost tops: { (distances lower).top ≡ (distances upper).top },
}
