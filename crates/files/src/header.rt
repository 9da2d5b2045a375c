ghost use Rattle.std.specs.Prelude.{◌≡◌, ◌≤◌, Some, None, IfOk, MatchResult};
ghost use Rattle.files.specs.Headers.{header_of, sections_allowed, discount_allowed, bands_span, routes_span, band_by};
ghost use Rattle.files.specs.Refusals.{refusal_of};
ghost use Rattle.files.specs.Reading.{header_read, Fits};

use crate::bytes::{byte, field};
use crate::kind::Kind;
use crate::layout::{
    BANDS_AT, DENOMINATOR_AT, HEADER_BYTES, KIND_AT, LENGTH_AT, NUMERATOR_AT, ROUTES_AT,
    SECTIONS_AT, WHOLE_AT,
};
use crate::refusal::ReadRefusal;
use crate::span::Span;

/// What a file's header says of its chart.
#[derive(Clone, Copy, PartialEq, Eq, Debug)]
pub struct Header {
    /// How many sections the chart has.
    pub sections: usize,
    /// The discount is `numerator / denominator`.
    pub numerator: u16,
    pub denominator: u16,
    /// What each row of a weighted chart adds up to.
    pub whole: u16,
    /// Where the bands begin.
    pub bands_at: usize,
    /// Where the routes begin.
    pub routes_at: usize,
}

impl Header {
    /// The fields of a file's header.
    fn of(bytes: &[u8]) -> Header
        ensures { result ≡ header_of bytes.now }
    {
        Header {
            sections: usize::from(field(bytes, SECTIONS_AT)),
            numerator: field(bytes, NUMERATOR_AT),
            denominator: field(bytes, DENOMINATOR_AT),
            whole: field(bytes, WHOLE_AT),
            bands_at: usize::from(field(bytes, BANDS_AT)),
            routes_at: usize::from(field(bytes, ROUTES_AT)),
        }
    }

    /// The band of section `s`, 0 where there is no such section.
    pub(crate) fn band(self, bytes: &[u8], s: usize) -> u8
        ensures { result ≡ band_by self bytes.now s }
    {
        if s < self.sections {
            byte(bytes, self.bands_at.saturating_add(s))
        } else {
            0
        }
    }

    /// Whether a chart may have so many sections.
    fn allows_sections(self) -> bool
        ensures { result ≡ sections_allowed self.sections }
    {
        (1..=32).contains(&self.sections)
    }

    /// Whether a chart may have this discount.
    fn allows_discount(self) -> bool
        ensures { result ≡ discount_allowed self.numerator self.denominator }
    {
        self.numerator >= 1 && self.numerator < self.denominator && self.denominator <= 1000
    }

    /// Where the bands lie.
    fn bands(self) -> Span
        ensures { result ≡ bands_span self }
    {
        Span {
            at: self.bands_at,
            size: self.sections,
        }
    }

    /// Where the routes lie.
    fn routes(self, kind: Kind) -> Span
        requires { self.sections ≤ 32 }
        ensures { result ≡ routes_span kind self }
    {
        Span {
            at: self.routes_at,
            size: kind.route_bytes(self.sections),
        }
    }

    /// Refuses a file with this header by the first check that it fails.
    #[tactic(auto, unfolding(crate::specs::Refusals::refusal_of))]
    fn check(self, bytes: &[u8], kind: Kind) -> Result<(), ReadRefusal>
        ensures { MatchResult result (λ _. refusal_of kind bytes.now self ≡ None) (λ e. refusal_of kind bytes.now self ≡ Some e) }
    {
        if bytes.len() < HEADER_BYTES {
            return Err(ReadRefusal::Short(bytes.len()));
        }
        if usize::from(field(bytes, LENGTH_AT)) != bytes.len() {
            return Err(ReadRefusal::Length);
        }
        if field(bytes, KIND_AT) != kind.code() {
            return Err(ReadRefusal::OtherKind);
        }
        if !self.allows_sections() {
            return Err(ReadRefusal::Sections);
        }
        if !self.allows_discount() {
            return Err(ReadRefusal::Discount);
        }
        if !kind.allows_whole(self.whole) {
            return Err(ReadRefusal::Whole);
        }
        let bands = self.bands();
        if !bands.lies_in(bytes.len()) {
            return Err(ReadRefusal::Bands);
        }
        let routes = self.routes(kind);
        if !routes.lies_in(bytes.len()) || bands.shares_byte(routes, bytes.len()) {
            return Err(ReadRefusal::Routes);
        }
        Ok(())
    }
}

/// The header of a file that should hold a chart of the kind, or the first check that it fails.
#[tactic(auto, using(crate::proofs::Reading::fits_unrefused))]
pub(crate) fn read_header(bytes: &[u8], kind: Kind) -> Result<Header, ReadRefusal>
    ensures answer { result ≡ header_read kind bytes.now }
    ensures fits { IfOk result (λ h. Fits kind bytes.now h) }
{
    let header = Header::of(bytes);
    header.check(bytes, kind)?;
    Ok(header)
}
