ghost use Rattle.std.specs.Prelude.{◌≡◌, is_some};
ghost use Rattle.std.specs.List.{count_by};

use chart::side::Side;
use chart::table::CELLS;

mod values;

/// The claims of a draft: at most one value for each ordered pair of sections, and how many there are.
#[derive(Clone, Copy)]
pub struct Claims {
    side: Side,
    count: u32,
    // An array, since a register uses no heap.
    pub(crate) values: [Option<u32>; CELLS],
    ghost counted: { count ≡ count_by is_some values },
}
