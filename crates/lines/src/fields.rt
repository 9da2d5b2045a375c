ghost use Rattle.std.specs.Prelude.{◌≡◌, ◌<◌, [], ◌∷◌, length, not, position, MatchOption};
ghost use Rattle.lines.specs.Fields.{blank, fields};

/// Whether a byte is a blank.
fn is_blank(byte: u8) -> bool
    ensures { result ≡ blank byte }
{
    matches!(byte, b' ' | b'\t' | b'\r')
}

/// Where the first byte is that is no blank.
fn first_not_blank(bytes: &[u8]) -> Option<usize>
    ensures { result ≡ position (λ b. not (blank b)) bytes.now }
{
    bytes.iter().position(|b| !is_blank(*b))
}

/// Where the first blank is.
fn first_blank(bytes: &[u8]) -> Option<usize>
    ensures { result ≡ position blank bytes.now }
{
    bytes.iter().position(|b| is_blank(*b))
}

/// The first field, and what follows it.
pub fn split_field(bytes: &[u8]) -> Option<(&[u8], &[u8])>
    ensures { MatchOption result (fields bytes.now ≡ []) (λ p. (fields bytes.now ≡ p.0.now ∷ fields p.1.now) × (length p.1.now < length bytes.now)) }
{
    let (_, rest) = bytes.split_at(first_not_blank(bytes)?);
    Some(rest.split_at(first_blank(rest).unwrap_or(rest.len())))
}
