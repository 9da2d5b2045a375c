ghost use Rattle.std.specs.Prelude.{◌≡◌, ℕ, ◌<◌, ◌≤◌, ◌⊎◌, [], length, Ok, Err, vec_capacity, MatchResult};
ghost use Rattle.lines.specs.Fields.{fields};
ghost use Rattle.lines.specs.declared.malformed.Malformed.TheVariants.{Memory};
ghost use Rattle.commands.specs.Parts.{tail};
ghost use Rattle.commands.specs.Reading.{Reading, command_read, command_words, line_read, line_words, no_more, two_sections, with_words};

use crate::command::Command;
use crate::name::{Name, read_name};
use lines::fields::split_field;
use lines::malformed::Malformed;
use lines::parts::{begin_line, number_field, read_words, side_field};

/// The sections that the first two fields write, and what follows these; the first is number `k` of the line.
fn section_fields(bytes: &[u8], k: usize) -> Result<(u32, u32, &[u8]), Malformed>
    requires { k ≤ 2 }
    ensures { MatchResult result
        (λ p. (next : ℕ → ℕ → Reading) → two_sections k next (fields bytes.now) ≡ next p.0 p.1 (fields p.2.now))
        (λ e. (next : ℕ → ℕ → Reading) → two_sections k next (fields bytes.now) ≡ Err e) }
{
    let (s, rest) = number_field(bytes, k)?;
    let (t, rest) = number_field(rest, k + 1)?;
    Ok((s, t, rest))
}

/// Refuses fields that are left over.
fn no_more(bytes: &[u8]) -> Result<(), Malformed>
    ensures { (c : Command) → MatchResult result (λ _. no_more c (fields bytes.now) ≡ Ok (c, [])) (λ e. no_more c (fields bytes.now) ≡ Err e) }
{
    // Not `ok_or`: here it is the field that is there that is wrong.
    match split_field(bytes) {
        None => Ok(()),
        Some(_) => Err(Malformed::TooManyFields),
    }
}

/// Reads the fields of the command of this name, up to its words, and answers what follows them.
fn read_fields(name: Name, bytes: &[u8]) -> Result<(Command, &[u8]), Malformed>
    ensures { MatchResult result
        (λ p. command_read name (fields bytes.now) ≡ tail p.0 (fields p.1.now))
        (λ e. command_read name (fields bytes.now) ≡ Err e) }
{
    match name {
        Name::Open => {
            let (side, rest) = side_field(bytes, 1)?;
            Ok((Command::Open { side }, rest))
        }
        Name::Claim => {
            let (s, t, rest) = section_fields(bytes, 1)?;
            let (value, rest) = number_field(rest, 3)?;
            Ok((Command::Claim { s, t, value }, rest))
        }
        Name::Close => Ok((Command::Close, bytes)),
        Name::Show => {
            let (s, t, rest) = section_fields(bytes, 1)?;
            Ok((Command::Show { s, t }, rest))
        }
        Name::Enter => Ok((Command::Enter, bytes)),
        Name::Abandon => Ok((Command::Abandon, bytes)),
        Name::Ask => {
            let (s, t, rest) = section_fields(bytes, 1)?;
            Ok((Command::Ask { s, t }, rest))
        }
        Name::Weigh => {
            let (side, rest) = side_field(bytes, 1)?;
            let (s, t, rest) = section_fields(rest, 2)?;
            Ok((Command::Weigh { side, s, t }, rest))
        }
    }
}

/// Reads what follows the name of a command, its words into `words`, which is cleared first.
fn read_command(name: Name, bytes: &[u8], words: &mut Vec<i32>) -> Result<Command, Malformed>
    ensures reads { MatchResult result
        (λ c. command_read name (fields bytes.now) ≡ Ok (c, words.new.items))
        (λ e. ((e ≡ Memory) × (vec_capacity words.old < command_words (command_read name (fields bytes.now)))) ⊎ (command_read name (fields bytes.now) ≡ Err e)) }
    ensures few { words.old.items ≡ [] → length words.new.items ≤ command_words (command_read name (fields bytes.now)) }
{
    let (command, rest) = read_fields(name, bytes)?;
    if command.takes_words() {
        read_words(rest, words)?;
    } else {
        words.clear();
        no_more(rest)?;
    }
    Ok(command)
}

/// Reads one line. The words of a `show` or a `weigh` go into `words`, which is cleared first and else stays empty.
///
/// A line that is passed over asks for nothing. Of several things that are wrong, the answer is the first in the line; at most the words before it stay in `words`.
/// Memory is wanting only if `words` has room for fewer words than the line has, or has before what is wrong with it.
pub fn read_line(line: &[u8], words: &mut Vec<i32>) -> Result<Option<Command>, Malformed>
    ensures reads { ((result ≡ Err Memory) × (vec_capacity words.old < line_words (line_read line.now))) ⊎ (with_words result words.new.items ≡ line_read line.now) }
    ensures few { length words.new.items ≤ line_words (line_read line.now) }
{
    words.clear();
    let Some((first, rest)) = begin_line(line) else {
        return Ok(None);
    };
    let name = read_name(first).ok_or(Malformed::UnknownCommand)?;
    Ok(Some(read_command(name, rest, words)?))
}
