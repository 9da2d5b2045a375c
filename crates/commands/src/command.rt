ghost use Rattle.std.specs.Prelude.{◌≡◌, Some};
ghost use Rattle.commands.specs.Parts.{takes_words};
ghost use Rattle.commands.specs.Texts.{command_text};

use chart::side::Side;
use std::fmt;

/// What a line asks for.
#[derive(Clone, Copy, PartialEq, Eq, Debug)]
pub enum Command {
    /// `open upper|lower`: a draft of claims on that side is to be opened.
    Open { side: Side },
    /// `claim S T VALUE`: the draft is to claim that `value` bounds the distance of the sections `s` and `t`.
    Claim { s: u32, t: u32, value: u32 },
    /// `close`: the draft is to take no more claims.
    Close,
    /// `show S T WORDS..`: those words are to show the draft's claim for `s` and `t`.
    Show { s: u32, t: u32 },
    /// `enter`: the draft's claims are to be entered.
    Enter,
    /// `abandon`: the draft is to be abandoned.
    Abandon,
    /// `ask S T`: the entries of `s` and `t` are asked for.
    Ask { s: u32, t: u32 },
    /// `weigh upper|lower S T WORDS..`: the showing of those words is to be weighed for `s` and `t`.
    Weigh { side: Side, s: u32, t: u32 },
}

impl Command {
    /// Whether words follow the command's own fields.
    // A test and no closure: the definition of what follows a command makes the same one.
    pub(crate) fn takes_words(self) -> bool
        ensures { result ≡ takes_words self }
    {
        matches!(self, Command::Show { .. } | Command::Weigh { .. })
    }
}

impl fmt::Display for Command {
    ghost output = { λ c. Some (command_text c) };

    fn fmt<W: fmt::Write>(&self, f: &mut fmt::Formatter<W>) -> fmt::Result {
        match *self {
            Command::Open { side } => write!(f, "open {side}"),
            Command::Claim { s, t, value } => write!(f, "claim {s} {t} {value}"),
            Command::Close => write!(f, "close"),
            Command::Show { s, t } => write!(f, "show {s} {t}"),
            Command::Enter => write!(f, "enter"),
            Command::Abandon => write!(f, "abandon"),
            Command::Ask { s, t } => write!(f, "ask {s} {t}"),
            Command::Weigh { side, s, t } => write!(f, "weigh {side} {s} {t}"),
        }
    }
}
