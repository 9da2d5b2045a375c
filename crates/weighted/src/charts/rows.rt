//! The rows that a file holds.
ghost use Rattle.std.specs.Prelude.{◌≡◌, ℕ, ◌≤◌, length, sum as sum_of, not, ◌==◌, slice_index};
ghost use Rattle.finite.specs.Sums.{sum};
ghost use Rattle.finite.specs.Search.{least};
ghost use Rattle.weighted.specs.Rows.{entry_at};
ghost use Rattle.weighted.specs.Reading.{part_in};

use chart::table::SECTIONS;
use files::bytes::field;
use files::file::ChartFile;
use std::array::from_fn;

/// The part of section `u` in row `s`, 0 where there is no such section.
fn read_part(file: &ChartFile, s: usize, u: usize) -> u16
    ensures { result ≡ part_in file.now.bytes.now s u }
{
    let n = file.header.sections;
    if s < n && u < n {
        field(file.bytes, file.header.routes_at + 2 * (s * n + u))
    } else {
        0
    }
}

/// Row `s`.
// An array, as the chart has it, since a kind uses no heap.
fn read_row(file: &ChartFile, s: usize) -> [u16; SECTIONS]
    ensures { (u : ℕ) → slice_index result u ≡ part_in file.now.bytes.now s u }
{
    from_fn(|u| read_part(file, s, u))
}

/// The rows.
pub(super) fn read_rows(file: &ChartFile) -> [[u16; SECTIONS]; SECTIONS]
    ensures { (s u : ℕ) → entry_at result s u ≡ part_in file.now.bytes.now s u }
{
    from_fn(
        |s|
            ensures { (u : ℕ) → slice_index result u ≡ part_in file.entry.now.bytes.now s u }
        { read_row(file, s) },
    )
}

/// What the parts add up to.
fn add_up(parts: &[u16]) -> u32
    requires { length parts.now ≤ 32 }
    ensures { result ≡ sum_of parts.now }
{
    parts.iter().map(|part| u32::from(*part)).sum()
}

/// Whether a row adds up to the whole.
fn adds_up(file: &ChartFile, row: &[u16; SECTIONS]) -> bool
    ensures { result ≡ (sum file.now.header.sections (λ u. slice_index row.now u) == file.now.header.whole) }
{
    add_up(&row[..file.header.sections]) == u32::from(file.header.whole)
}

/// The first row that does not add up to the whole.
pub(super) fn find_row(file: &ChartFile, rows: &[[u16; SECTIONS]; SECTIONS]) -> Option<usize>
    ensures { result ≡ least file.now.header.sections (λ s. not (sum file.now.header.sections (entry_at rows.now s) == file.now.header.whole)) }
{
    rows[..file.header.sections]
        .iter()
        .position(|row| !adds_up(file, row))
}
