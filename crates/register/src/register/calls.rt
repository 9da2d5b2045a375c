ghost use Rattle.std.specs.Prelude.{◌≡◌, OnErr};
ghost use Rattle.history.specs.Rules.{Step};
ghost use Rattle.history.specs.Promises.{KeepsPromise};
ghost use Rattle.register.specs.Calls.{call_of, counted};
ghost use Rattle.register.specs.Held.{chart_of, held, parts_of, top_of};

use crate::call::Call;
use crate::register::Register;
use chart::kind::Chart;
use history::refusal::Refusal;

impl<C: Chart> Register<C> {
    /// Plays a call: it is accepted and answers a count, or it is refused and changes nothing.
    #[inline(always)]
    pub fn call(&mut self, call: Call<'_>) -> Result<u32, Refusal<C::Fault>>
        ensures chart { chart_of self.new ≡ chart_of self.old }
        ensures top { top_of self.new ≡ top_of self.old }
        ensures rule { Step (C.Chart.meaning (chart_of self.old)) (top_of self.old) (held self.old) (call_of call.entry) (counted result) (held self.new) }
        ensures promise { KeepsPromise (C.Chart.meaning (chart_of self.new)) (top_of self.new) (held self.new) }
        ensures unchanged { OnErr result (parts_of self.new ≡ parts_of self.old) }
    {
        self.contents.call(call)
    }
}
