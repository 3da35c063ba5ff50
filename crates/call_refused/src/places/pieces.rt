//! What stands between two pieces of a text.

/// What joins a piece to the one before it: nothing where there is none.
pub fn joint<'a>(between: &'a [u8], piece: &[u8]) -> &'a [u8] {
    if piece.is_empty() { b"" } else { between }
}
