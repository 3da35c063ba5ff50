//! The first and the last line of a certificate, and what stands between them.

ghost use Rattle.std.specs.Prelude.{◌≡◌, ◌++◌, List, length};
ghost use Rattle.std.specs.List.{All};
ghost use Rattle.model_line.specs.{declared.line.Line.Line, declared.script.Script.Script};
ghost use Rattle.cert_claims.specs.text.Grammar.{Claims, HasOneEach, head_text, end_text};
ghost use Rattle.cert_claims.specs.text.Text.{fed, parts_text, certificate_text};

/// The first line of a certificate, with its line feed.
pub const CERT_HEAD: &[u8] = b"pilot-cert 1\n";

/// The last line of a certificate, with its line feed.
pub const CERT_END: &[u8] = b"end\n";

/// The two constants are the first and the last line of the grammar, and the text of a certificate
/// is the first, the scripts' parts one after another, and the last.
pub fn a_certificate_is_its_parts()
    ensures head { CERT_HEAD.now ≡ fed head_text }
    ensures end { CERT_END.now ≡ fed end_text }
    ensures parts { (line : Line) (scripts : List Script) (claims : List Claims) →
        length claims ≡ length scripts → All (HasOneEach line) claims →
        certificate_text line scripts claims
        ≡ CERT_HEAD.now ++ (parts_text line scripts claims ++ CERT_END.now) }
{}
