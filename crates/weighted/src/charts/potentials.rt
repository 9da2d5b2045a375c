ghost use Rattle.std.specs.Prelude.{◌≡◌, ℕ, ◌*◌, ◌<◌, length};
ghost use Rattle.chart.specs.Words.{word};
ghost use Rattle.weighted.specs.Bounds.{Narrow};

use crate::charts::Weighted;

mod weighing;

/// Potentials for two sections of a chart: a word for each section, on either side.
#[derive(Clone, Copy)]
struct Potentials<'a> {
    chart: &'a Weighted,
    s: usize,
    t: usize,
    words: &'a [i32],
    ghost first_in: { s < chart.now.n },
    ghost second_in: { t < chart.now.n },
    ghost two_each: { length words.now ≡ 2 * chart.now.n },
    ghost narrow: { (i : ℕ) → Narrow (word words.now i) },
}
