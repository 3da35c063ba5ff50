//! The first and the last line of the text of settled trees.

ghost use Rattle.std.specs.Prelude.{◌≡◌};
ghost use Rattle.cert_claims.specs.{text.Grammar.end_text, text.Text.fed};
ghost use Rattle.cert_settle.specs.Grammar.{head_text};

/// The first line, with its line feed.
pub const SETTLE_HEAD: &[u8] = b"study-trees 2\n";

/// The last line, with its line feed.
pub const SETTLE_END: &[u8] = b"end\n";

/// The two constants are the first and the last line of a text, which has the parts of the scripts
/// between them.
pub fn a_settle_text_has_a_head_and_an_end()
    ensures head { SETTLE_HEAD.now ≡ fed head_text }
    ensures end { SETTLE_END.now ≡ fed end_text }
{}
