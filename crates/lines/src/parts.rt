ghost use Rattle.std.specs.Prelude.{◌≡◌, ℕ, ◌<◌, ◌≤◌, true, false, ◌⊎◌, List, ◌∷◌, Option, length, drop, Ok, Err, vec_capacity, MatchOption, MatchResult};
ghost use Rattle.std.specs.Fn.{FnOnceReturnsAt};
ghost use Rattle.lines.specs.Fields.{fields};
ghost use Rattle.lines.specs.Numerals.{number_of};
ghost use Rattle.lines.specs.Reading.{comment, first, passed_over, side_of, words_from, words_kept};
ghost use Rattle.lines.specs.declared.malformed.Malformed.TheVariants.{Memory, NotASide, NotANumber};

use crate::fields::split_field;
use crate::malformed::Malformed;
use crate::numerals::{read_number, read_word};
use chart::side::Side;

/// The side that a field names.
#[tactic(auto, using(std::proofs::lemmas::Slice::Eq::text_from_reads))]
fn read_side(field: &[u8]) -> Option<Side>
    ensures { result ≡ side_of field.now }
{
    match field {
        b"upper" => Some(Side::Upper),
        b"lower" => Some(Side::Lower),
        _ => None,
    }
}

/// What the first field says, as `read` reads it, and what follows it; `wrong` is said of a field that says nothing.
fn first_field<T, F: FnOnce(&[u8]) -> Option<T>>(
    bytes: &[u8],
    read: F,
    wrong: Malformed,
) -> Result<(T, &[u8]), Malformed>
    ghost says: { List ℕ → Option T }
    requires callable { F.IsAlwaysCallable read }
    requires reads { (field : List ℕ) (r : Option T) → FnOnceReturnsAt F.FnOnce read field r → r ≡ says field }
    ensures { MatchResult result
        (λ p. (first says wrong (fields bytes.now) ≡ Ok p.0) × (drop 1 (fields bytes.now) ≡ fields p.1.now))
        (λ e. first says wrong (fields bytes.now) ≡ Err e) }
{
    let (field, rest) = split_field(bytes).ok_or(Malformed::TooFewFields)?;
    let value = read(field).ok_or(wrong)?;
    Ok((value, rest))
}

/// The side that the first field names, and what follows it; the field is number `k` of the line.
// The bytes and the number of their first field, and not a cursor over both: its clauses would say what it held before, too.
pub fn side_field(bytes: &[u8], k: usize) -> Result<(Side, &[u8]), Malformed>
    ensures { MatchResult result
        (λ p. (first side_of (NotASide k) (fields bytes.now) ≡ Ok p.0) × (drop 1 (fields bytes.now) ≡ fields p.1.now))
        (λ e. first side_of (NotASide k) (fields bytes.now) ≡ Err e) }
{
    first_field(bytes, read_side, Malformed::NotASide(k))
}

/// The number that the first field writes, and what follows it; the field is number `k` of the line.
pub fn number_field(bytes: &[u8], k: usize) -> Result<(u32, &[u8]), Malformed>
    ensures { MatchResult result
        (λ p. (first number_of (NotANumber k) (fields bytes.now) ≡ Ok p.0) × (drop 1 (fields bytes.now) ≡ fields p.1.now))
        (λ e. first number_of (NotANumber k) (fields bytes.now) ≡ Err e) }
{
    first_field(bytes, read_number, Malformed::NotANumber(k))
}

/// Reads the words that all fields write into `words`, in place of what it holds.
///
/// Memory is wanting only if `words` has room for fewer words than there are before the first field that is none. At most those words stay in `words` then.
pub fn read_words(bytes: &[u8], words: &mut Vec<i32>) -> Result<(), Malformed>
    ensures reads { MatchResult result
        (λ _. words_from 0 (fields bytes.now) ≡ Ok words.new.items)
        (λ e. ((e ≡ Memory) × (vec_capacity words.old < words_kept (words_from 0 (fields bytes.now)))) ⊎ (words_from 0 (fields bytes.now) ≡ Err e)) }
    ensures few { length words.new.items ≤ words_kept (words_from 0 (fields bytes.now)) }
{
    words.clear();
    let mut rest = bytes;
    // Not the library's `split`: by `split_field`, as each other field is cut.
    while let Some((field, after)) = split_field(rest) {
        let word = read_word(field).ok_or(Malformed::NotAWord(words.len()))?;
        words.push(word)?;
        rest = after;
    }
    Ok(())
}

/// Whether a line is passed over that begins with this field.
fn is_comment(field: &[u8]) -> bool
    ensures { result ≡ comment field.now }
{
    matches!(field, [b'#', ..])
}

/// The first field of a line and what follows it, or nothing where the line is passed over.
pub fn begin_line(line: &[u8]) -> Option<(&[u8], &[u8])>
    ensures { MatchOption result (passed_over (fields line.now) ≡ true) (λ p. (fields line.now ≡ p.0.now ∷ fields p.1.now) × (comment p.0.now ≡ false)) }
{
    split_field(line).filter(|(first, _)| !is_comment(first))
}
