ghost use Rattle.std.specs.Prelude.{◌≡◌, ◌%◌, ◌≤◌, not, ◌&&◌, ◌||◌, length, Some, MatchResult, ◌==◌, nat_lt, slice_index};
ghost use Rattle.std.specs.Option.{option_map};
ghost use Rattle.finite.specs.Search.{least};
ghost use Rattle.chart.specs.Tables.{distances};
ghost use Rattle.chart.specs.declared.side.Side.TheVariants.{Upper};
ghost use Rattle.chart.specs.Bands.{unjudged};
ghost use Rattle.transitions.specs.declared.fault.Fault.TheVariants.{NoSuccessor};
ghost use Rattle.transitions.specs.Pairing.{bad_word, least_claim};
ghost use Rattle.transitions.specs.Meaning.{weighed};
ghost use Rattle.choice.specs.View.{marks, system};
ghost use Rattle.choice.specs.Gathering.{Gathers};

use crate::charts::successors::named_section;
use crate::charts::{Choice, LONGEST};
use chart::table::{SECTIONS, Table};
use transitions::fault::Fault;

/// Whether no pairing has so many words.
fn wrong_count(count: usize) -> bool
    ensures { result ≡ (not (count % 2 == 0) || nat_lt LONGEST count) }
{
    count % 2 != 0 || count > LONGEST
}

/// The first section that `mask` marks and `paired` does not.
fn find_unpaired(mask: u32, paired: u32) -> Option<usize>
    ensures { result ≡ least SECTIONS (λ u. marks mask u && not (marks paired u)) }
{
    let unpaired = mask & !paired;
    if unpaired == 0 {
        return None;
    }
    // `as`: no `From` makes a usize of a u32, and it is below 32.
    Some(unpaired.trailing_zeros() as usize)
}

/// What one pass over the pairs of a pairing finds: masks of the sections that are in a pair on either side, and the greatest entry of a pair.
struct Gathered {
    left: u32,
    right: u32,
    greatest: u32,
}

impl Choice {
    /// Whether `(s, t)` is no judged pair.
    // Not the trait's `judges`, since the weighings that the trait calls would then call the trait.
    pub(super) fn is_unjudged(&self, s: usize, t: usize) -> bool
        ensures { result ≡ unjudged self.now.n (slice_index self.now.bands) s t }
    {
        s >= self.n || t >= self.n || self.bands[s] != self.bands[t]
    }

    /// One pass over the pairs: the first word that names no successor, or what they have.
    fn gather(&self, d: &Table, s: usize, t: usize, words: &[i32]) -> Result<Gathered, Fault>
        requires { (length words.now % 2 ≡ 0) × (length words.now ≤ LONGEST) }
        ensures { MatchResult result (Gathers (system self.now) (distances d.now) s t words.now) (λ f. option_map NoSuccessor (least (length words.now) (bad_word (system self.now) s t words.now)) ≡ Some f) }
    {
        let (first_mask, second_mask) = (self.mask(s), self.mask(t));
        let mut left: u32 = 0;
        let mut right: u32 = 0;
        let mut greatest: u32 = 0;
        let (pairs, _) = words.as_chunks::<2>();
        for (j, [first, second]) in pairs.iter().enumerate() {
            let u = named_section(first_mask, *first).ok_or(Fault::NoSuccessor(2 * j))?;
            let v = named_section(second_mask, *second).ok_or(Fault::NoSuccessor(2 * j + 1))?;
            left |= 1 << u;
            right |= 1 << v;
            greatest = greatest.max(d.entry(u, v));
        }
        Ok(Gathered {
            left,
            right,
            greatest,
        })
    }

    /// An entry, discounted and rounded up.
    fn round_up(&self, entry: u32) -> u32
        requires { entry ≤ 1000000000 }
        ensures { result ≡ least_claim (system self.now) entry }
    {
        // `as`: it is at most 1,000,000,000.
        (u64::from(self.a) * u64::from(entry)).div_ceil(u64::from(self.b)) as u32
    }

    /// The least claim that the pairing shows for `(s, t)` in the table, or its first fault.
    pub(super) fn weigh_pairing(
        &self,
        d: &Table,
        s: usize,
        t: usize,
        words: &[i32],
    ) -> Result<u32, Fault>
        ensures { result ≡ weighed (system self.now) Upper (distances d.now) s t words.now }
    {
        if self.is_unjudged(s, t) {
            return Err(Fault::Unjudged);
        }
        if wrong_count(words.len()) {
            return Err(Fault::PairingCount(words.len()));
        }
        let Gathered {
            left,
            right,
            greatest,
        } = self.gather(d, s, t, words)?;
        if let Some(u) = find_unpaired(self.mask(s), left) {
            return Err(Fault::FirstUnpaired(u));
        }
        if let Some(v) = find_unpaired(self.mask(t), right) {
            return Err(Fault::SecondUnpaired(v));
        }
        Ok(self.round_up(greatest))
    }
}
