ghost use Rattle.std.specs.Prelude.{◌≡◌, MatchOption};
ghost use Rattle.fixed_order.specs.Order.{Sound, given};
ghost use Rattle.fixed_order.specs.View.{order};

use crate::order::FixedOrder;
use chart::table::SECTIONS;

impl FixedOrder {
    /// The chart with `n` sections, the discount `a / b`, and the band and the next section of each section.
    pub fn new(
        n: usize,
        a: u16,
        b: u16,
        bands: [u8; SECTIONS],
        next: [usize; SECTIONS],
    ) -> Option<FixedOrder>
        ensures { MatchOption result (Sound (given n a b bands next) → ⊥) (λ chart. order chart ≡ given n a b bands next) }
    {
        let fits = (1..=SECTIONS).contains(&n) && 1 <= a && a < b && b <= 1000;
        if !fits || next.iter().take(n).any(|s| *s >= n) {
            return None;
        }
        Some(FixedOrder {
            n,
            a,
            b,
            bands,
            next,
        })
    }
}
