ghost use Rattle.std.specs.Prelude.{◌≡◌};
ghost use Rattle.history.specs.Calls.{Ask as Asks};
ghost use Rattle.register.specs.Calls.{call_of};
ghost use Rattle.file_registers.specs.Registers.{ComesTo, Keeps, WeighsTo, sections_of};

use crate::outcome::Outcome;
use crate::registers::FileRegister;
use chart::side::Side;
use register::call::Call;

impl FileRegister {
    /// How many sections its chart has.
    pub fn sections(&self) -> usize
        ensures { result ≡ sections_of self.now }
    {
        match self {
            Self::One(register) => register.sections(),
            Self::Two(register) => register.sections(),
        }
    }

    /// Plays a call: it is accepted and answers a count, or it is refused and changes nothing.
    #[inline(always)]
    pub fn call(&mut self, call: Call<'_>) -> Outcome
        ensures comes { ComesTo self.old (call_of call.entry) result self.new }
        ensures promise { Keeps self.new }
    {
        match self {
            Self::One(register) => Outcome::of_call(register.call(call)),
            Self::Two(register) => Outcome::of_call(register.call(call)),
        }
    }

    /// The lower entry of a pair, the upper entry, and what they say.
    pub fn ask(&self, s: usize, t: usize) -> Outcome
        ensures comes { ComesTo self.now (Asks s t) result self.now }
        ensures promise { Keeps self.now }
    {
        match self {
            Self::One(register) => Outcome::of_ask(register.ask(s, t)),
            Self::Two(register) => Outcome::of_ask(register.ask(s, t)),
        }
    }

    /// Weighs a showing in the table of a side, with no claims laid over it.
    pub fn weigh(&self, side: Side, s: usize, t: usize, words: &[i32]) -> Outcome
        ensures { WeighsTo self.now side s t words.now result }
    {
        match self {
            Self::One(register) => Outcome::of_weighing(register.weigh(side, s, t, words)),
            Self::Two(register) => Outcome::of_weighing(register.weigh(side, s, t, words)),
        }
    }
}
