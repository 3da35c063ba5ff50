//! The law of escaped text.

ghost use Rattle.std.specs.Prelude.{◌≡◌, ℕ, List, IsTrue, codes};
ghost use Rattle.std.specs.List.{list_all};
ghost use Rattle.base_markup.specs.svg.Escape.{escaped, is_plain};

/// Escaped words hold printable ASCII and line feeds alone, and neither `<`, nor `>`, nor `"`.
pub fn escaped_words_are_plain()
    ensures { (words : List ℕ) → IsTrue (list_all is_plain (escaped words)) }
{}

/// The line feed is escaped as itself.
#[tactic(auto, unfolding(crate::specs::svg::Escape::escape))]
pub fn line_feed_is_itself()
    ensures { escaped (codes "\n") ≡ codes "\n" }
{}
