ghost use Rattle.std.specs.Prelude.{◌≤◌};
ghost use Rattle.register.specs.Phases.{highest_in, Laid};
ghost use Rattle.register.specs.Tables.{top_in};

use crate::phase::Phase;
use crate::tables::Tables;
use chart::kind::Chart;

mod calls;

/// What a register holds: its chart, an upper and a lower table over one top, and the draft that is open.
#[derive(Drop)]
pub struct Contents<C: Chart> {
    pub(crate) chart: C,
    pub(crate) tables: Tables,
    pub(crate) phase: Phase,
    ghost within: { highest_in phase ≤ top_in tables },
    ghost laid: { Laid tables phase },
}
