//! The hash of a text.

ghost use Rattle.std.specs.Prelude.{IfOk};
ghost use Rattle.call_facts.specs.Hashes.{IsHashOf};

use model_line::Memory;
use sha2::{Digest, Sha256};
use std::alloc::Global;

/// The SHA-256 of a text, in 64 hex digits.
pub fn hash_of(alloc: Global, text: &[u8]) -> Result<Vec<u8>, Memory>
    ensures { IfOk result (λ hash. IsHashOf text.now hash.items) }
{
    let digest = Sha256::digest(text);
    let digits = hex::encode(alloc, &digest)?;
    let hash = Vec::from_slice(alloc, digits.as_bytes())?;
    Ok(hash)
}
