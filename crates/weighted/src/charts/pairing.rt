ghost use Rattle.std.specs.Prelude.{◌≡◌, ℕ, ◌+◌, ◌-◌, ◌*◌, ◌%◌, ◌<◌, ◌≤◌, true, not, ◌||◌, length, pos, Some, MatchResult, ◌==◌, nat_lt, slice_index};
ghost use Rattle.std.specs.Option.{option_map};
ghost use Rattle.finite.specs.Search.{least};
ghost use Rattle.chart.specs.Tables.{distances};
ghost use Rattle.chart.specs.declared.side.Side.TheVariants.{Upper};
ghost use Rattle.chart.specs.Words.{outside};
ghost use Rattle.chart.specs.Bands.{unjudged};
ghost use Rattle.chain.specs.declared.fault.Fault.TheVariants.{Section as NoSection, Amount as NoAmount};
ghost use Rattle.chain.specs.Pairing.{bad_word, word_fault, least_claim};
ghost use Rattle.chain.specs.Meaning.{weighed};
ghost use Rattle.weighted.specs.View.{chain};
ghost use Rattle.weighted.specs.Triples.{Reads};

use crate::charts::{LONGEST, Weighted};
use chain::fault::Fault;
use chart::table::{SECTIONS, Table};

/// Whether no pairing has so many words.
fn wrong_count(count: usize) -> bool
    ensures { result ≡ (not (count % 3 == 0) || nat_lt LONGEST count) }
{
    count % 3 != 0 || count > LONGEST
}

/// A cell of a coupling, and its amount.
#[derive(Clone, Copy)]
struct Triple {
    u: usize,
    v: usize,
    amount: u32,
}

impl Triple {
    /// The amount times the entry of its pair.
    fn cost(&self, d: &Table) -> u64
        ensures { result ≡ self.now.amount * (distances d.now).entry self.now.u self.now.v }
    {
        u64::from(self.amount) * u64::from(d.entry(self.u, self.v))
    }
}

impl Weighted {
    /// Whether `(s, t)` is no judged pair.
    // Not the trait's `judges`: tried, and refused, since the weighings that the trait calls would then call the trait.
    pub(super) fn is_unjudged(&self, s: usize, t: usize) -> bool
        ensures { result ≡ unjudged self.now.n (slice_index self.now.bands) s t }
    {
        s >= self.n || t >= self.n || self.bands[s] != self.bands[t]
    }

    /// The section that a word names, or the fault at its place.
    fn section(&self, word: i32, place: usize) -> Result<usize, Fault>
        ensures { MatchResult result (λ u. (word ≡ pos u) × (u < self.now.n)) (λ f. (f ≡ NoSection place) × (outside (pos 0) (pos (self.now.n - 1)) word ≡ true)) }
    {
        // One comparison, since a negative word counts as 2^31 or more. `n` is at most 32 by the type: `min` tells the compiler, which then tests no entry's pair.
        let u = word.cast_unsigned() as usize;
        if u < self.n.min(SECTIONS) {
            Ok(u)
        } else {
            Err(Fault::Section(place))
        }
    }

    /// The amount that a word is, or the fault at its place.
    // Not one with `section`: each has a type, a range and a fault of its own.
    fn amount(&self, word: i32, place: usize) -> Result<u32, Fault>
        ensures { MatchResult result (λ x. (word ≡ pos x) × (1 ≤ x) × (x ≤ self.now.whole)) (λ f. (f ≡ NoAmount place) × (outside (pos 1) (pos self.now.whole) word ≡ true)) }
    {
        let x = word.cast_unsigned();
        if (1..=u32::from(self.whole)).contains(&x) {
            Ok(x)
        } else {
            Err(Fault::Amount(place))
        }
    }

    /// The triple at `j`, or the fault of its first bad word.
    fn triple(&self, words: &[i32; 3], j: usize) -> Result<Triple, Fault>
        requires { 3 * j < LONGEST }
        ensures { MatchResult result (Reads (chain self.now) words.now) (λ f. option_map (λ i. word_fault (3 * j + i)) (least 3 (bad_word (chain self.now) words.now)) ≡ Some f) }
    {
        let [u, v, amount] = *words;
        Ok(Triple {
            u: self.section(u, 3 * j)?,
            v: self.section(v, 3 * j + 1)?,
            amount: self.amount(amount, 3 * j + 2)?,
        })
    }

    /// Whether the amounts at each section are its part in row `s`.
    // A quick look at the whole row, with no branches, before a search for the first that is not.
    fn is_row(&self, s: usize, amounts: &[u32; SECTIONS]) -> bool
        requires { s < self.now.n }
        ensures { result ≡ true → (u : ℕ) → u < self.now.n → slice_index amounts.now u ≡ (chain self.now).part s u }
    {
        let row = &self.rows[s];
        let mut differs = false;
        for u in 0..self.n {
            differs |= amounts[u] != u32::from(row[u]);
        }
        !differs
    }

    /// The first section whose amounts are not its part in row `s`.
    fn find_margin(&self, s: usize, amounts: &[u32; SECTIONS]) -> Option<usize>
        requires { s < self.now.n }
        ensures { result ≡ least self.now.n (λ u. not (slice_index amounts.now u == (chain self.now).part s u)) }
    {
        if self.is_row(s, amounts) {
            return None;
        }
        amounts[..self.n]
            .iter()
            .zip(&self.rows[s])
            .position(|(amount, part)| *amount != u32::from(*part))
    }

    /// The total, discounted and rounded up.
    fn round_up(&self, total: u64) -> u32
        requires { total ≤ 1000000000 * self.now.whole }
        ensures { result ≡ least_claim (chain self.now) total }
    {
        // `as`: it is at most 1,000,000,000.
        (u64::from(self.a) * total).div_ceil(self.scale()) as u32
    }

    /// The least claim that the pairing shows for `(s, t)` in the table, or its first fault.
    pub(super) fn weigh_pairing(
        &self,
        d: &Table,
        s: usize,
        t: usize,
        words: &[i32],
    ) -> Result<u32, Fault>
        ensures { result ≡ weighed (chain self.now) Upper (distances d.now) s t words.now }
    {
        if self.is_unjudged(s, t) {
            return Err(Fault::Unjudged);
        }
        if wrong_count(words.len()) {
            return Err(Fault::PairingCount(words.len()));
        }
        // Arrays, since a kind uses no heap; two, since each is compared with a row of its own.
        let mut left = [0; SECTIONS];
        let mut right = [0; SECTIONS];
        let mut total = 0;
        let (triples, _) = words.as_chunks::<3>();
        for (j, chunk) in triples.iter().enumerate() {
            let triple = self.triple(chunk, j)?;
            left[triple.u] += triple.amount;
            right[triple.v] += triple.amount;
            total += triple.cost(d);
        }
        if let Some(u) = self.find_margin(s, &left) {
            return Err(Fault::FirstMargin(u));
        }
        if let Some(v) = self.find_margin(t, &right) {
            return Err(Fault::SecondMargin(v));
        }
        Ok(self.round_up(total))
    }
}
