ghost use Rattle.std.specs.Prelude.{◌≡◌};
ghost use Rattle.claims.specs.Scan.{unmarked};

use crate::draft::Claims;
use chart::table::{CELLS, Table};

mod shown;

/// A draft that takes no more claims: which of its claims are shown, how many are left to show, and a table with all of them laid over it.
#[derive(Drop)]
pub struct ClosedDraft {
    claims: Claims,
    // An array, since a register uses no heap, and beside the claims: a draft that takes claims has no marks.
    shown: [bool; CELLS],
    left: u32,
    laid: Table,
    ghost counted: { left ≡ unmarked claims.values shown },
}
