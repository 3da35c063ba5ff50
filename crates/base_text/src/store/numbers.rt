//! Decimal numbers.
ghost use Rattle.std.specs.Prelude.{◌≡◌};
ghost use Rattle.base_text.specs.store.Number.{digits_value, number_of};

/// The number that the bytes write in decimal digits, with no sign and no leading zero but the
/// single `0`, at most 4,294,967,295.
pub fn number(bytes: &[u8]) -> Option<u32>
    ensures { result ≡ number_of bytes.now }
{
    match bytes {
        [] => None,
        [b'0', _, ..] => None,
        _ => digits_value(bytes),
    }
}

// What the digits come to, if all bytes are digits and it fits.
fn digits_value(bytes: &[u8]) -> Option<u32>
    ensures { result ≡ digits_value bytes.now }
{
    let mut value: u32 = 0;
    for byte in bytes {
        if !byte.is_ascii_digit() {
            return None;
        }
        value = value.checked_mul(10)?.checked_add(u32::from(*byte - b'0'))?;
    }
    Some(value)
}
