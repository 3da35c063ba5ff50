//! Texts of pieces, one after another.

ghost use Rattle.std.specs.Prelude.{◌≡◌, ◌++◌, IfOk, OnOk, map};
ghost use Rattle.std.specs.List.{concat};

use base_memory::Memory;
use std::alloc::Global;

/// Appends the pieces to a text.
pub fn push_pieces(text: &mut Vec<u8>, pieces: &[&[u8]]) -> Result<(), Memory>
    ensures { OnOk result (text.new.items
        ≡ text.old.items ++ concat (map (λ piece. piece.now) pieces.now)) }
{
    for piece in pieces {
        text.extend_from_slice(piece)?;
    }
    Ok(())
}

/// The text of the pieces.
pub fn text_of(alloc: Global, pieces: &[&[u8]]) -> Result<Vec<u8>, Memory>
    ensures { IfOk result (λ text. text.items ≡ concat (map (λ piece. piece.now) pieces.now)) }
{
    let mut text = Vec::new(alloc);
    push_pieces(&mut text, pieces)?;
    Ok(text)
}
