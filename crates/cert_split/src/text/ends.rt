//! The first and the last line of the text of split trees.

ghost use Rattle.std.specs.Prelude.{◌≡◌};
ghost use Rattle.cert_claims.specs.{text.Grammar.end_text, text.Text.fed};
ghost use Rattle.cert_split.specs.text.Grammar.{head_text};

/// The first line, with its line feed.
pub const SPLIT_HEAD: &[u8] = b"pilot-split 1\n";

/// The last line, with its line feed.
pub const SPLIT_END: &[u8] = b"end\n";

/// The two constants are the first and the last line of a text of split trees, which has the parts of the
/// scripts between them.
pub fn a_split_text_has_a_head_and_an_end()
    ensures head { SPLIT_HEAD.now ≡ fed head_text }
    ensures end { SPLIT_END.now ≡ fed end_text }
{}
