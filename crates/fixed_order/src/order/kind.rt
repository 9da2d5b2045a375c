ghost use Rattle.std.specs.Prelude.{◌≡◌, ◌≤◌, slice_index};
ghost use Rattle.chart.specs.declared.side.Side.TheVariants.{Upper, Lower};
ghost use Rattle.fixed_order.specs.View.{order, sound};
ghost use Rattle.fixed_order.specs.Meaning.{means, strongest};
ghost use Rattle.fixed_order.specs.Laws.{lawful as keeps_laws};

use crate::fault::Fault;
use crate::order::FixedOrder;
use chart::kind::Chart;
use chart::side::Side;
use chart::table::Table;

impl FixedOrder {
    /// The band of a section.
    fn band(&self, s: usize) -> u8
        ensures { result ≡ slice_index self.now.bands s }
    {
        *self.bands.get(s).unwrap_or(&0)
    }

    /// The section that comes after a section.
    fn next(&self, s: usize) -> usize
        ensures { result ≡ slice_index self.now.next s }
    {
        *self.next.get(s).unwrap_or(&0)
    }

    /// An entry, discounted and rounded up.
    fn round_up(&self, entry: u32) -> u32
        requires { entry ≤ 1000000000 }
        ensures { result ≡ strongest (order self.now) Upper entry }
    {
        // `as`: it is at most the entry.
        (u64::from(self.a) * u64::from(entry)).div_ceil(u64::from(self.b)) as u32
    }

    /// An entry, discounted and rounded down.
    fn round_down(&self, entry: u32) -> u32
        ensures { result ≡ strongest (order self.now) Lower entry }
    {
        // `as`: it is at most the entry.
        (u64::from(self.a) * u64::from(entry) / u64::from(self.b)) as u32
    }
}

impl Chart for FixedOrder {
    type Fault = Fault;

    ghost meaning = { λ chart. means (order chart) };

    ghost lawful = { λ chart. keeps_laws (order chart) (sound chart) };

    fn sections(&self) -> usize {
        self.n
    }

    fn discount(&self) -> (u32, u32) {
        (u32::from(self.a), u32::from(self.b))
    }

    fn longest(&self) -> u32 {
        0
    }

    fn apart(&self, s: usize, t: usize) -> bool {
        self.band(s) != self.band(t)
    }

    fn weigh(
        &self,
        side: Side,
        table: &Table,
        s: usize,
        t: usize,
        words: &[i32],
    ) -> Result<u32, Fault> {
        if s >= self.n || t >= self.n || self.band(s) != self.band(t) {
            return Err(Fault::Unjudged);
        }
        if !words.is_empty() {
            return Err(Fault::Words(words.len()));
        }
        let entry = table.entry(self.next(s), self.next(t));
        match side {
            Side::Upper => Ok(self.round_up(entry)),
            Side::Lower => Ok(self.round_down(entry)),
        }
    }
}
