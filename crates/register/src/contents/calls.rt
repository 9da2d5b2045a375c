ghost use Rattle.std.specs.Prelude.{◌≡◌, OnErr};
ghost use Rattle.history.specs.Rules.{Step};
ghost use Rattle.register.specs.Calls.{call_of, counted};
ghost use Rattle.register.specs.Contents.{held_in, top_within};

use crate::call::Call;
use crate::contents::Contents;
use crate::drafts::claiming::claim;
use crate::drafts::showing::show;
use crate::phase::Phase;
use chart::kind::Chart;
use claims::draft::Claims;
use history::refusal::Refusal;

impl<C: Chart> Contents<C> {
    /// Plays a call: one match on the phase and the call, changed in place.
    // Inlined, so that a caller who makes one call keeps only its cases of the match.
    #[inline(always)]
    #[tactic(auto, using(crate::proofs::Idle::idle, crate::proofs::Playing::opened))]
    pub(crate) fn call(&mut self, call: Call<'_>) -> Result<u32, Refusal<C::Fault>>
        ensures chart { self.new.chart ≡ self.old.chart }
        ensures top { top_within self.new ≡ top_within self.old }
        ensures rule { Step (C.Chart.meaning self.old.chart) (top_within self.old) (held_in self.old) (call_of call.entry) (counted result) (held_in self.new) }
        ensures unchanged { OnErr result ((self.new.tables ≡ self.old.tables) × (self.new.phase ≡ self.old.phase)) }
    {
        match (&mut self.phase, call) {
            (Phase::Resting, Call::Open(side)) => {
                self.phase = Phase::Claiming(Claims::new(side));
                Ok(0)
            }
            (_, Call::Open(_)) => Err(Refusal::NotResting),
            (Phase::Claiming(claims), Call::Claim { s, t, value }) => {
                claim(&self.chart, &self.tables, claims, s, t, value)
            }
            (_, Call::Claim { .. }) => Err(Refusal::NotClaiming),
            (Phase::Claiming(claims), Call::Close) => {
                let n = claims.count();
                if n == 0 {
                    return Err(Refusal::NoClaims);
                }
                self.phase = Phase::Showing(self.tables.close(*claims));
                Ok(n)
            }
            (_, Call::Close) => Err(Refusal::CloseNotClaiming),
            (Phase::Showing(draft), Call::Show { s, t, words }) => {
                show(&self.chart, draft, s, t, words)
            }
            (_, Call::Show { .. }) => Err(Refusal::NotShowing),
            (Phase::Showing(draft), Call::Enter) => {
                if let Some((s, t)) = draft.first_unshown() {
                    return Err(Refusal::Unshown(s, t));
                }
                self.tables.write(draft.claims());
                Ok(self.phase.forget())
            }
            (_, Call::Enter) => Err(Refusal::EnterNotShowing),
            (Phase::Resting, Call::Abandon) => Err(Refusal::Resting),
            (phase, Call::Abandon) => Ok(phase.forget()),
        }
    }
}
