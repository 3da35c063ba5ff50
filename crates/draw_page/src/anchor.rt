//! What a link leads to.

ghost use Rattle.std.specs.Prelude.{◌≡◌, ◌<◌, ◌^◌, ◌++◌, ℕ, codes, decimal, IfOk};
ghost use Rattle.draw_page.specs.declared.anchor.Anchor.TheVariants.{Fault};
ghost use Rattle.draw_page.specs.Elements.{anchor_said, target_said};

use crate::words::words_of;
use itoa::Buffer;
use std::alloc::{AllocError, Global};

/// The places of the page that a link may lead to: its sections, and each fault by its number.
#[derive(Clone, Copy)]
pub enum Anchor {
    Verdicts,
    Failing,
    Open,
    Times,
    Faults,
    Files,
    Signature,
    Fault(usize),
}

/// Its id.
pub fn anchor_words(alloc: Global, anchor: Anchor) -> Result<Vec<u8>, AllocError>
    ensures { IfOk result (λ text. text.items ≡ anchor_said anchor) }
{
    match anchor {
        Anchor::Verdicts => Vec::from_slice(alloc, b"verdicts"),
        Anchor::Failing => Vec::from_slice(alloc, b"failing"),
        Anchor::Open => Vec::from_slice(alloc, b"open"),
        Anchor::Times => Vec::from_slice(alloc, b"times"),
        Anchor::Faults => Vec::from_slice(alloc, b"faults"),
        Anchor::Files => Vec::from_slice(alloc, b"files"),
        Anchor::Signature => Vec::from_slice(alloc, b"signature"),
        Anchor::Fault(n) => fault_words(alloc, n),
    }
}

fn fault_words(alloc: Global, n: usize) -> Result<Vec<u8>, AllocError>
    ensures { IfOk result (λ text. text.items ≡ codes "fault-" ++ decimal n) }
{
    let mut digits = Buffer::new();
    words_of(alloc, &[b"fault-", digits.format(n).as_bytes()])
}

/// What a link to it names.
pub fn target_words(alloc: Global, anchor: Anchor) -> Result<Vec<u8>, AllocError>
    ensures { IfOk result (λ text. text.items ≡ target_said anchor) }
{
    let words = anchor_words(alloc, anchor)?;
    words_of(alloc, &[b"#", words.as_slice()])
}

/// Each fault has an id of its own.
pub fn faults_have_ids_of_their_own()
    ensures { (m n : ℕ) → m < 2 ^ 64 → n < 2 ^ 64 →
        anchor_said (Fault m) ≡ anchor_said (Fault n) → m ≡ n }
{}
