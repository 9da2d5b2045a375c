ghost use Rattle.std.specs.Prelude.{◌≡◌, ℕ, ◌+◌, ◌*◌, ◌/◌, ◌%◌, ◌<◌, ◌&&◌, true, false, length, pos, ◌+ℤ◌, ◌*ℤ◌, neg_ℤ, ◌≤ℤ◌, int_lt, nat_lt};
ghost use Rattle.finite.specs.Sums.{sumℤ};
ghost use Rattle.finite.specs.Search.{least};
ghost use Rattle.chart.specs.Tables.{distances};
ghost use Rattle.chart.specs.declared.side.Side.TheVariants.{Lower};
ghost use Rattle.chart.specs.Words.{word, outside};
ghost use Rattle.chain.specs.Potentials.{above, gain, greatest_claim};
ghost use Rattle.chain.specs.Meaning.{weighed};
ghost use Rattle.weighted.specs.View.{chain};
ghost use Rattle.weighted.specs.Bounds.{Narrow};

use crate::charts::Weighted;
use crate::charts::potentials::Potentials;
use chain::fault::Fault;
use chart::table::{SECTIONS, Table};

/// Whether no word is further from 0 than the top.
// A quick look at all words, with no branches, before a search for the first that is.
fn all_within(words: &[i32], top: u32) -> bool
    ensures { result ≡ true → (i : ℕ) → i < length words.now → outside (neg_ℤ (pos top)) (pos top) (word words.now i) ≡ false }
{
    let mut wide = false;
    for i in 0..words.len() {
        wide |= words[i].unsigned_abs() > top;
    }
    !wide
}

/// The first word that is further from 0 than the top.
fn find_wide(words: &[i32], top: u32) -> Option<usize>
    ensures { result ≡ least (length words.now) (λ i. outside (neg_ℤ (pos top)) (pos top) (word words.now i)) }
{
    if all_within(words, top) {
        return None;
    }
    words.iter().position(|w| w.unsigned_abs() > top)
}

/// Whether two sections are both successors, and their potentials add up to more than the entry of their pair.
fn comes_above(part: u16, other: u16, alpha: i32, beta: i32, entry: u32) -> bool
    ensures { result ≡ (nat_lt 0 part && (nat_lt 0 other && int_lt (pos entry) (alpha +ℤ beta))) }
{
    part > 0 && other > 0 && i64::from(alpha) + i64::from(beta) > i64::from(entry)
}

/// No potential is lower. Where no top is above 1,000,000,000, no potential comes above an entry with it.
const LOWEST: i32 = -1_000_000_000;

/// Whether the potential and each of the bounds add up to at most their entry in row `u` of the table.
// A quick look at a whole row, with no branches, before a scan of its pairs.
fn row_fits(d: &Table, u: usize, alpha: i32, bounds: &[i32; SECTIONS]) -> bool
    requires { Narrow alpha × ((v : ℕ) → Narrow (word bounds.now v)) }
    ensures { result ≡ true → (v : ℕ) → v < 32 → (alpha +ℤ word bounds.now v) ≤ℤ pos ((distances d.now).entry u v) }
{
    let Some(row) = d.row(u) else {
        return false;
    };
    let mut above = false;
    for v in 0..SECTIONS {
        // `as`: no entry is above 1,000,000,000.
        above |= alpha + bounds[v] > row[v] as i32;
    }
    !above
}

impl Potentials<'_> {
    /// The potential of a section on the second side where it is a successor there, and else the lowest there is.
    fn bound(&self, v: usize) -> i32
        requires { v < self.now.chart.now.n }
        ensures narrow { Narrow result }
        ensures same { 0 < (chain self.now.chart.now).part self.now.t v → result ≡ word self.now.words.now (self.now.chart.now.n + v) }
    {
        let beta = self.words[self.chart.n + v];
        if self.chart.rows[self.t][v] > 0 {
            beta
        } else {
            LOWEST
        }
    }

    /// That of each section, and the lowest where there is none.
    fn bounds(&self) -> [i32; SECTIONS]
        ensures narrow { (v : ℕ) → Narrow (word result v) }
        ensures same { (v : ℕ) → v < self.now.chart.now.n → 0 < (chain self.now.chart.now).part self.now.t v → word result v ≡ word self.now.words.now (self.now.chart.now.n + v) }
    {
        let mut bounds = [LOWEST; SECTIONS];
        for v in 0..self.chart.n {
            bounds[v] = self.bound(v);
        }
        bounds
    }

    /// The place of the first pair of successors, by `u` and then by `v`, whose potentials add up to more than its entry.
    fn find_above(&self, d: &Table) -> Option<usize>
        ensures { let n = self.now.chart.now.n in result ≡ least (n * n) (λ i. above (chain self.now.chart.now) (distances d.now) self.now.s self.now.t self.now.words.now (i / n) (i % n)) }
    {
        let (alphas, betas) = self.words.split_at(self.chart.n);
        let first = &self.chart.rows[self.s];
        let second = &self.chart.rows[self.t];
        let bounds = self.bounds();
        let mut found = None;
        // By a rule of the project, the scan under the table is two loops that a label leaves.
        'scan: for (u, alpha) in alphas.iter().enumerate() {
            if first[u] == 0 {
                continue;
            }
            if row_fits(d, u, *alpha, &bounds) {
                continue;
            }
            for (v, beta) in betas.iter().enumerate() {
                if comes_above(first[u], second[v], *alpha, *beta, d.entry(u, v)) {
                    found = Some(u * self.chart.n + v);
                    break 'scan;
                }
            }
        }
        found
    }

    /// What the potentials add up to, weighed by the rows of the two sections.
    fn gain(&self) -> i64
        ensures { result ≡ gain (chain self.now.chart.now) self.now.s self.now.t self.now.words.now }
    {
        let (alphas, betas) = self.words.split_at(self.chart.n);
        self.chart.weigh_row(self.s, alphas) + self.chart.weigh_row(self.t, betas)
    }
}

impl Weighted {
    /// Row `s`, each part times the word of its section.
    fn weigh_row(&self, s: usize, words: &[i32]) -> i64
        requires { (s < self.now.n) × (length words.now ≡ self.now.n) }
        ensures value { result ≡ sumℤ self.now.n (λ u. pos ((chain self.now).part s u) *ℤ word words.now u) }
        ensures small { (result ≤ℤ pos 4503530907893760) × (neg_ℤ (pos 4503530907893760) ≤ℤ result) }
    {
        let mut sum: i64 = 0;
        // A loop: the library's lemmas on `sum` speak of numbers without sign.
        for (part, word) in self.rows[s].iter().zip(words) {
            sum += i64::from(*part) * i64::from(*word);
        }
        sum
    }

    /// The sum, discounted and rounded down, or 0 where it is negative.
    fn round_down(&self, sum: i64) -> u32
        requires { sum ≤ℤ pos (2000000000 * self.now.whole) }
        ensures { result ≡ greatest_claim (chain self.now) sum }
    {
        let gain = u64::try_from(sum).unwrap_or(0);
        // `as`: it is at most 1,000,000,000.
        (u64::from(self.a) * gain / self.scale()) as u32
    }

    /// The greatest claim that the potentials show for `(s, t)` in the table, or their first fault.
    pub(in crate::charts) fn weigh_potentials(
        &self,
        d: &Table,
        s: usize,
        t: usize,
        words: &[i32],
    ) -> Result<u32, Fault>
        ensures { result ≡ weighed (chain self.now) Lower (distances d.now) s t words.now }
    {
        if self.is_unjudged(s, t) {
            return Err(Fault::Unjudged);
        }
        if words.len() != 2 * self.n {
            return Err(Fault::PotentialsCount(words.len()));
        }
        if let Some(i) = find_wide(words, d.top()) {
            return Err(Fault::Range(i));
        }
        let potentials = Potentials {
            chart: self,
            s,
            t,
            words,
        };
        if let Some(i) = potentials.find_above(d) {
            return Err(Fault::Above(i));
        }
        Ok(self.round_down(potentials.gain()))
    }
}
