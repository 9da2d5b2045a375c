use claims::closed::ClosedDraft;
use claims::draft::Claims;

mod ending;

/// Whether a draft is open, and what it takes.
#[derive(Drop)]
pub enum Phase {
    /// No draft is open.
    Resting,
    /// A draft takes claims.
    Claiming(Claims),
    /// A draft takes showings of its claims.
    Showing(ClosedDraft),
}
