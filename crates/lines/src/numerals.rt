ghost use Rattle.std.specs.Prelude.{◌≡◌};
ghost use Rattle.lines.specs.Numerals.{at_most, number_of, numeral, word_of};

/// The number that a numeral writes, if it is at most `most`.
fn read_numeral(field: &[u8], most: u32) -> Option<u32>
    ensures { result ≡ at_most most (numeral field.now) }
{
    if field.is_empty() {
        return None;
    }
    // Not `parse`, which takes a plus sign; a `try_fold`'s closure would hold the same two tests.
    let mut value = 0;
    for byte in field {
        if !byte.is_ascii_digit() {
            return None;
        }
        value = value * 10 + u64::from(*byte - b'0');
        if value > u64::from(most) {
            return None;
        }
    }
    // `as`, here and below: the value is at most `most`.
    Some(value as u32)
}

/// The number that a field writes, if it is a decimal numeral of a number below 2^32: digits only.
pub fn read_number(field: &[u8]) -> Option<u32>
    ensures { result ≡ number_of field.now }
{
    read_numeral(field, u32::MAX)
}

/// The word that a field writes.
pub fn read_word(field: &[u8]) -> Option<i32>
    ensures { result ≡ word_of field.now }
{
    match field {
        [b'-', digits @ ..] => {
            let value = read_numeral(digits, 1 << 31)?;
            Some(-i64::from(value) as i32)
        }
        _ => {
            let value = read_numeral(field, (1 << 31) - 1)?;
            Some(value as i32)
        }
    }
}
