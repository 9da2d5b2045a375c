ghost use Rattle.std.specs.Prelude.{◌≡◌, [], ◌∷◌, Some, MatchResult};
ghost use Rattle.chart.specs.Tops.{InRange, refusal_numbers};
ghost use Rattle.chart.specs.Texts.{top_refusal_text};

use crate::top::{Top, TopRefusal};
use std::fmt;

impl Top {
    /// The top of that number, if it is in range.
    // Not `TryFrom`, nor a chain on `ok`: its name says what the number becomes, and the guard is what the top's type asks.
    pub fn new(number: u64) -> Result<Top, TopRefusal>
        ensures { MatchResult result (λ top. InRange number × (top.value ≡ number)) (λ e. (InRange number → ⊥) × (refusal_numbers e ≡ 11 ∷ [])) }
    {
        match u32::try_from(number) {
            Ok(value) if (1..=1_000_000_000).contains(&value) => Ok(Top { value }),
            _ => Err(TopRefusal::OutOfRange),
        }
    }

    /// Its number.
    pub fn value(&self) -> u32
        ensures { result ≡ self.now.value }
    {
        self.value
    }
}

impl fmt::Display for TopRefusal {
    ghost output = { λ refusal. Some (top_refusal_text refusal) };

    fn fmt<W: fmt::Write>(&self, f: &mut fmt::Formatter<W>) -> fmt::Result {
        match self {
            TopRefusal::OutOfRange => {
                write!(
                    f,
                    "11 (the top is not a whole number from 1 to 1,000,000,000)"
                )
            }
        }
    }
}
