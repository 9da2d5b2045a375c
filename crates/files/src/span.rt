ghost use Rattle.std.specs.Prelude.{◌≡◌};
ghost use Rattle.files.specs.Spans.{in_file, share_byte};

use crate::layout::HEADER_BYTES;

/// Some bytes of a file, one after another.
#[derive(Clone, Copy)]
pub struct Span {
    pub at: usize,
    pub size: usize,
}

impl Span {
    /// Whether the bytes lie wholly in a file of `total` bytes, after its header.
    pub fn lies_in(self, total: usize) -> bool
        ensures { result ≡ in_file total self }
    {
        self.at >= HEADER_BYTES && self.at <= total && self.size <= total - self.at
    }

    /// Whether a byte of a file of `total` bytes lies in both.
    pub fn shares_byte(self, other: Span, total: usize) -> bool
        ensures { result ≡ share_byte total self other }
    {
        let first = self.at.max(other.at);
        let end = self.at.saturating_add(self.size);
        let other_end = other.at.saturating_add(other.size);
        first < end.min(other_end).min(total)
    }
}
