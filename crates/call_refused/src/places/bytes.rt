//! Lines and bytes.

ghost use Rattle.std.specs.Prelude.{◌≡◌, ◌≤◌, ◌<◌, IfSome, length, position};
ghost use Rattle.call_refused.specs.places.Bytes.{first_line, has_byte, is_break};

/// The bytes before the first line break.
pub fn first_line(bytes: &[u8]) -> &[u8]
    ensures is { result.now ≡ first_line bytes.now }
    ensures within { length result.now ≤ length bytes.now }
{
    match break_in(bytes) {
        Some(end) => &bytes[..end],
        None => bytes,
    }
}

// Where the first line break stands.
fn break_in(bytes: &[u8]) -> Option<usize>
    ensures place { result ≡ position is_break bytes.now }
    ensures within { IfSome result (λ e. e < length bytes.now) }
{
    bytes.iter().position(|b| is_break(*b))
}

fn is_break(b: u8) -> bool
    ensures { result ≡ is_break b }
{
    b == b'\n' || b == b'\r'
}

/// Whether the byte stands there.
pub fn has_byte(byte: u8, bytes: &[u8]) -> bool
    ensures { result ≡ has_byte byte bytes.now }
{
    bytes.contains(&byte)
}
