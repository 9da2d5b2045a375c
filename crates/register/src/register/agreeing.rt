ghost use Rattle.std.specs.Prelude.{◌≡◌, ◌*◌, IfSome};
ghost use Rattle.std.specs.Option.{option_zip};
ghost use Rattle.chart.specs.Same.{Same};
ghost use Rattle.history.specs.Promises.{SettledAgree};
ghost use Rattle.register.specs.Held.{chart_of, held, top_of};
ghost use Rattle.register.specs.Settling.{settled_entry};

use crate::register::Register;
use chart::kind::Chart;

impl<C: Chart> Register<C> {
    /// The entry of a pair that is settled.
    fn settled(&self, s: usize, t: usize) -> Option<u32>
        ensures { result ≡ settled_entry (C.Chart.meaning (chart_of self.now)) (held self.now) s t }
    {
        let (lower, upper) = self.contents.tables.entries(s, t);
        (self.contents.chart.judges(s, t) && lower == upper).then_some(upper)
    }

    /// The entries of a pair here and in another register, where both have it settled.
    ///
    /// In two registers of the same chart, though it be a value of another kind, they stand for the same distance: each times the other's top, they are equal.
    pub fn settled_with<D: Chart>(
        &self,
        other: &Register<D>,
        s: usize,
        t: usize,
    ) -> Option<(u32, u32)>
        ensures entries { result ≡ option_zip (settled_entry (C.Chart.meaning (chart_of self.now)) (held self.now) s t) (settled_entry (D.Chart.meaning (chart_of other.now)) (held other.now) s t) }
        ensures distance { IfSome result (λ entries. Same (C.Chart.meaning (chart_of self.now)) (D.Chart.meaning (chart_of other.now)) → entries.0 * top_of other.now ≡ entries.1 * top_of self.now) }
        ensures agree { SettledAgree (C.Chart.meaning (chart_of self.now)) (D.Chart.meaning (chart_of other.now)) }
    {
        self.settled(s, t).zip(other.settled(s, t))
    }
}
