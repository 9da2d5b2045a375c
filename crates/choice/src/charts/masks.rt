//! The masks that a file holds.
ghost use Rattle.std.specs.Prelude.{◌≡◌, ℕ, not, slice_index};
ghost use Rattle.finite.specs.Search.{least};
ghost use Rattle.choice.specs.Reading.{mask_in, mask_allowed};

use chart::table::SECTIONS;
use files::bytes::long_field;
use files::file::ChartFile;
use std::array::from_fn;

/// The mask of section `s`, 0 where there is no such section.
fn read_mask(file: &ChartFile, s: usize) -> u32
    ensures { result ≡ mask_in file.now.bytes.now s }
{
    if s < file.header.sections {
        long_field(file.bytes, file.header.routes_at + 4 * s)
    } else {
        0
    }
}

/// The mask of each section.
// An array, as the chart has it, since a kind uses no heap.
pub(super) fn read_masks(file: &ChartFile) -> [u32; SECTIONS]
    ensures { (s : ℕ) → slice_index result s ≡ mask_in file.now.bytes.now s }
{
    from_fn(|s| read_mask(file, s))
}

/// Whether a mask marks a section, and none that the chart has not.
fn allows(file: &ChartFile, mask: u32) -> bool
    ensures { result ≡ mask_allowed file.now.header.sections mask }
{
    mask != 0 && u64::from(mask) < 1 << file.header.sections
}

/// The first section whose mask is 0, or marks a section that the chart has not.
pub(super) fn find_mask(file: &ChartFile, masks: &[u32; SECTIONS]) -> Option<usize>
    ensures { result ≡ least file.now.header.sections (λ s. not (mask_allowed file.now.header.sections (slice_index masks.now s))) }
{
    masks[..file.header.sections]
        .iter()
        .position(|mask| !allows(file, *mask))
}
