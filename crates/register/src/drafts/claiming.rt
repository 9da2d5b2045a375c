ghost use Rattle.std.specs.Prelude.{◌≡◌, ◌≤◌, max, OnErr};
ghost use Rattle.history.specs.Calls.{Claim as ClaimCall};
ghost use Rattle.history.specs.Rules.{Step};
ghost use Rattle.claims.specs.Views.{highest};
ghost use Rattle.register.specs.declared.phase.Phase.TheVariants.{Claiming};
ghost use Rattle.register.specs.Calls.{counted};
ghost use Rattle.register.specs.Phases.{phase_of};
ghost use Rattle.register.specs.Tables.{top_in, state};

use crate::tables::Tables;
use chart::kind::Chart;
use claims::draft::Claims;
use history::refusal::Refusal;

/// Claims a value for a pair. It answers how many claims the draft has then.
#[tactic(auto, using(crate::proofs::Steps::claim_outside, crate::proofs::Steps::claim_apart, crate::proofs::Steps::inside_both, crate::proofs::Steps::outside_one))]
pub(crate) fn claim<C: Chart>(
    chart: &C,
    tables: &Tables,
    claims: &mut Claims,
    s: usize,
    t: usize,
    value: u32,
) -> Result<u32, Refusal<C::Fault>>
    ensures rule { Step (C.Chart.meaning chart.now) (top_in tables.now) (state tables.now (phase_of (Claiming claims.old))) (ClaimCall s t value) (counted result) (state tables.now (phase_of (Claiming claims.new))) }
    ensures within { highest claims.new.values ≤ max (highest claims.old.values) (top_in tables.now) }
    ensures unchanged { OnErr result (claims.new ≡ claims.old) }
{
    if !chart.has_both(s, t) {
        return Err(Refusal::ClaimOutside);
    }
    if chart.apart(s, t) {
        return Err(Refusal::ClaimApart);
    }
    if claims.value(s, t).is_some() {
        return Err(Refusal::ClaimedTwice);
    }
    if tables.unfit(claims.side(), s, t, value) {
        return Err(Refusal::ClaimValue);
    }
    claims.put(s, t, value);
    Ok(claims.count())
}
