ghost use Rattle.std.specs.Prelude.{◌≡◌};
ghost use Rattle.files.specs.Format.{byte as byte_of, field as field_of, long_field as long_field_of};

/// The byte at a place, which is 0 past the end.
pub fn byte(bytes: &[u8], at: usize) -> u8
    ensures { result ≡ byte_of bytes.now at }
{
    bytes.get(at).copied().unwrap_or(0)
}

/// The 16 bits from a place on, high byte first; a byte past the end counts as 0.
pub fn field(bytes: &[u8], at: usize) -> u16
    ensures { result ≡ field_of bytes.now at }
{
    let low = byte(bytes, at.saturating_add(1));
    u16::from_be_bytes([byte(bytes, at), low])
}

/// The 32 bits from a place on, high byte first; a byte past the end counts as 0.
pub fn long_field(bytes: &[u8], at: usize) -> u32
    ensures { result ≡ long_field_of bytes.now at }
{
    let high = field(bytes, at);
    let low = field(bytes, at.saturating_add(2));
    (u32::from(high) << 16) | u32::from(low)
}
