ghost use Rattle.std.specs.Prelude.{◌≡◌, MatchBool, OnErr};
ghost use Rattle.history.specs.Calls.{Show as ShowCall};
ghost use Rattle.history.specs.Rules.{Step, Short};
ghost use Rattle.register.specs.declared.phase.Phase.TheVariants.{Showing};
ghost use Rattle.register.specs.Calls.{counted};
ghost use Rattle.register.specs.Phases.{phase_of};
ghost use Rattle.register.specs.Tables.{top_in, state, LaidOver};
ghost use Rattle.register.specs.declared.tables.Tables.{Tables};

use chart::kind::Chart;
use chart::side::Side;
use claims::closed::ClosedDraft;
use history::refusal::Refusal;

/// Whether the strongest claim that a showing shows does not reach the value that is claimed.
// Not one with `Tables::unfit`, which compares a claim with an entry and the top.
fn falls_short(side: Side, bound: u32, value: u32) -> bool
    ensures { MatchBool result (Short side bound value) (Short side bound value → ⊥) }
{
    match side {
        Side::Upper => value < bound,
        Side::Lower => bound < value,
    }
}

/// Weighs a showing of a pair's claim, and marks the claim as shown. It answers how many are not shown yet.
#[tactic(auto, using(crate::proofs::Steps::show_outside, crate::proofs::Steps::show_unclaimed, crate::proofs::Steps::show_again, crate::proofs::Steps::show_short, crate::proofs::Steps::inside_both, crate::proofs::Steps::outside_one))]
pub(crate) fn show<C: Chart>(
    chart: &C,
    draft: &mut ClosedDraft,
    s: usize,
    t: usize,
    words: &[i32],
) -> Result<u32, Refusal<C::Fault>>
    ensures rule { (tables : Tables) → LaidOver tables draft.old → Step (C.Chart.meaning chart.now) (top_in tables) (state tables (phase_of (Showing draft.old))) (ShowCall s t words.now) (counted result) (state tables (phase_of (Showing draft.new))) }
    ensures claims { draft.new.claims ≡ draft.old.claims }
    ensures laid { draft.new.laid ≡ draft.old.laid }
    ensures unchanged { OnErr result (draft.new ≡ draft.old) }
{
    if !chart.has_both(s, t) {
        return Err(Refusal::ShowOutside);
    }
    let claims = draft.claims();
    // Not `ok_or`, which would have to drop a refusal, nor `ok_or_else`: its closure would only name one.
    let Some(value) = claims.value(s, t) else {
        return Err(Refusal::NoClaim);
    };
    if draft.is_shown(s, t) {
        return Err(Refusal::ShownAlready);
    }
    let side = claims.side();
    let bound = draft.weigh(chart, s, t, words)?;
    if falls_short(side, bound, value) {
        return Err(Refusal::Bound(side, bound));
    }
    draft.mark(s, t);
    Ok(draft.left())
}
