ghost use Rattle.std.specs.Prelude.{◌≡◌};
ghost use Rattle.history.specs.Rules.{claims, draft_of};
ghost use Rattle.register.specs.declared.phase.Phase.TheVariants.{Resting};
ghost use Rattle.register.specs.Phases.{phase_of};

use crate::phase::Phase;

impl Phase {
    /// How many claims the open draft has; none is open at rest.
    fn count(&self) -> u32
        ensures { result ≡ claims (draft_of (phase_of self.now)) }
    {
        match self {
            Phase::Resting => 0,
            Phase::Claiming(claims) => claims.count(),
            Phase::Showing(draft) => draft.claims().count(),
        }
    }

    /// Comes to rest, and answers how many claims are forgotten.
    pub(crate) fn forget(&mut self) -> u32
        ensures count { result ≡ claims (draft_of (phase_of self.old)) }
        ensures rests { self.new ≡ Resting }
    {
        let n = self.count();
        *self = Phase::Resting;
        n
    }
}
