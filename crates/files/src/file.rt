ghost use Rattle.std.specs.Prelude.{◌≡◌, ℕ, IfOk, slice_index};
ghost use Rattle.std.specs.Result.{result_err};
ghost use Rattle.files.specs.Headers.{header_of, band_in};
ghost use Rattle.files.specs.Reading.{Fits};
ghost use Rattle.files.specs.Refusals.{header_refusal};

use crate::header::{Header, read_header};
use crate::kind::Kind;
use crate::refusal::ReadRefusal;
use chart::table::SECTIONS;
use std::array::from_fn;

/// A file with the header of a chart of the kind.
#[derive(Clone, Copy)]
pub struct ChartFile<'a> {
    pub kind: Kind,
    pub bytes: &'a [u8],
    pub header: Header,
    ghost fits: { Fits kind bytes.now header },
}

impl<'a> ChartFile<'a> {
    /// The file with these bytes, or the first check that its header fails.
    pub fn new(bytes: &'a [u8], kind: Kind) -> Result<ChartFile<'a>, ReadRefusal>
        ensures answer { result_err result ≡ header_refusal kind bytes.now }
        ensures kind { IfOk result (λ file. file.kind ≡ kind) }
        ensures bytes { IfOk result (λ file. file.bytes.now ≡ bytes.now) }
        ensures header { IfOk result (λ file. file.header ≡ header_of bytes.now) }
    {
        let header = read_header(bytes, kind)?;
        Ok(ChartFile {
            kind,
            bytes,
            header,
        })
    }

    /// The band of each section.
    // An array, as a chart has it, since a kind uses no heap.
    pub fn bands(&self) -> [u8; SECTIONS]
        ensures { (s : ℕ) → slice_index result s ≡ band_in self.now.bytes.now s }
    {
        from_fn(|s| self.header.band(self.bytes, s))
    }
}
