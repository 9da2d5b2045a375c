//! The successors that the masks mark.
ghost use Rattle.std.specs.Prelude.{◌≡◌, ◌<◌, true, false, pos, MatchOption, slice_index};
ghost use Rattle.transitions.specs.System.{successor};
ghost use Rattle.transitions.specs.Words.{names};
ghost use Rattle.choice.specs.View.{marks, names_marked, system};

use crate::charts::Choice;
use chart::table::SECTIONS;

/// The section that a word names, if the mask marks it.
pub(super) fn named_section(mask: u32, word: i32) -> Option<usize>
    ensures { MatchOption result (names_marked mask word ≡ false) (λ u. (word ≡ pos u) × (u < SECTIONS) × (marks mask u ≡ true)) }
{
    match usize::try_from(word) {
        Ok(u) if u < SECTIONS && mask >> u & 1 == 1 => Some(u),
        _ => None,
    }
}

impl Choice {
    /// The mask of section `s`, 0 where there is no such section.
    pub(super) fn mask(&self, s: usize) -> u32
        ensures { result ≡ slice_index self.now.masks s }
    {
        self.masks.get(s).copied().unwrap_or(0)
    }

    /// The successor of `s` that a word names.
    pub(super) fn named_successor(&self, s: usize, word: i32) -> Option<usize>
        ensures { MatchOption result (names (system self.now) s word ≡ false) (λ u. (word ≡ pos u) × (successor (system self.now) s u ≡ true)) }
    {
        named_section(self.mask(s), word)
    }
}
