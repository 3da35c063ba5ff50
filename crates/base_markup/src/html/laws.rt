//! The law of text.

ghost use Rattle.std.specs.Prelude.{ℕ, List, IsTrue};
ghost use Rattle.std.specs.List.{list_all};
ghost use Rattle.base_markup.specs.html.Words.{is_unmarked, words_text};

use crate::svg::escaped_words_are_plain;

/// Text holds neither `<`, nor `>`, nor `"`, whatever its words are.
pub fn text_has_no_markup()
    ensures { (words : List ℕ) → IsTrue (list_all is_unmarked (words_text words)) }
{
    escaped_words_are_plain();
}
