ghost use Rattle.std.specs.Prelude.{◌≡◌, ◌≤◌, IfNone, IsSomeAnd};
ghost use Rattle.files.specs.Kinds.{code as code_of, whole_allowed, route_bytes, kind_named};
ghost use Rattle.files.specs.Refusals.{header_refusal, number};

use crate::bytes::field;
use crate::layout::KIND_AT;

/// The kinds of chart that a file can hold.
#[derive(Clone, Copy, PartialEq, Eq, Debug)]
pub enum Kind {
    /// Each section has a row of parts, which add up to the whole.
    Weighted,
    /// Each section has a mask, which marks its successors.
    Choice,
}

impl Kind {
    /// The kind that a file names, if it names one.
    /// A file that names none can be read as any kind: it is refused with 1 or 2.
    #[tactic(auto, using(crate::proofs::Reading::unless_named))]
    pub fn of(bytes: &[u8]) -> Option<Kind>
        ensures answer { result ≡ kind_named bytes.now }
        ensures refused { IfNone result ((kind : Kind) → IsSomeAnd (header_refusal kind bytes.now) (λ e. number e ≤ 2)) }
    {
        let code = field(bytes, KIND_AT);
        [Kind::Weighted, Kind::Choice]
            .into_iter()
            .find(|kind| kind.code() == code)
    }

    /// The number by which a file names the kind.
    pub(crate) fn code(self) -> u16
        ensures { result ≡ code_of self }
    {
        match self {
            Kind::Weighted => 1,
            Kind::Choice => 2,
        }
    }

    /// Whether a chart of this kind may have `whole` as its whole.
    pub(crate) fn allows_whole(self, whole: u16) -> bool
        ensures { result ≡ whole_allowed self whole }
    {
        match self {
            Kind::Weighted => (1..=10_000).contains(&whole),
            Kind::Choice => whole == 0,
        }
    }

    /// How many bytes the routes take.
    pub(crate) fn route_bytes(self, sections: usize) -> usize
        requires { sections ≤ 32 }
        ensures { result ≡ route_bytes self sections }
    {
        match self {
            Kind::Weighted => 2 * (sections * sections),
            Kind::Choice => 4 * sections,
        }
    }
}
