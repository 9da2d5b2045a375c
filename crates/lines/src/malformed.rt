ghost use Rattle.std.specs.Prelude.{◌≡◌, Some};
ghost use Rattle.lines.specs.Texts.{malformed_text};
ghost use Rattle.lines.specs.declared.malformed.Malformed.TheVariants.{Memory};

use std::alloc::AllocFailed;
use std::fmt;

/// What is wrong with a line. Fields and words are counted from 0; the command is field 0, and words have a count of their own.
#[derive(Clone, Copy, PartialEq, Eq, Debug)]
pub enum Malformed {
    /// The first field names no command.
    UnknownCommand,
    /// The command asks for more fields.
    TooFewFields,
    /// The command takes fewer fields.
    TooManyFields,
    /// This field is neither `upper` nor `lower`.
    NotASide(usize),
    /// This field is no decimal numeral of a number below 2^32.
    NotANumber(usize),
    /// This word is no decimal numeral, with a minus or none, of a signed 32-bit number.
    NotAWord(usize),
    /// There is no memory for its words.
    Memory,
}

impl fmt::Display for Malformed {
    ghost output = { λ m. Some (malformed_text m) };

    fn fmt<W: fmt::Write>(&self, f: &mut fmt::Formatter<W>) -> fmt::Result {
        match self {
            Malformed::UnknownCommand => write!(f, "the first field is no command"),
            Malformed::TooFewFields => write!(f, "there are too few fields"),
            Malformed::TooManyFields => write!(f, "there are too many fields"),
            Malformed::NotASide(k) => write!(f, "field {k} is neither upper nor lower"),
            Malformed::NotANumber(k) => {
                write!(f, "field {k} is not a whole number from 0 to 4294967295")
            }
            Malformed::NotAWord(k) => {
                write!(
                    f,
                    "word {k} is not a whole number from -2147483648 to 2147483647"
                )
            }
            Malformed::Memory => write!(f, "there is no memory for its words"),
        }
    }
}

impl<T: Drop> From<AllocFailed<T>> for Malformed {
    ghost from_gives = { λ _ r. r ≡ Memory };

    fn from(_e: AllocFailed<T>) -> Malformed {
        Self::Memory
    }
}
