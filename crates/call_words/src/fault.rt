//! Why words ask for nothing.

/// A word that is wrong, and what it has to be.
#[derive(Clone, Copy)]
pub struct WordFault<'a> {
    /// The option that it stands behind, as `--part`; none of a file, an axis or a command.
    pub option: Option<&'static str>,
    pub word: &'a str,
    pub wanted: &'static str,
}

impl<'a> WordFault<'a> {
    /// A word that stands behind an option.
    pub fn behind(option: &'static str, word: &'a str, wanted: &'static str) -> Self {
        WordFault {
            option: Some(option),
            word,
            wanted,
        }
    }

    /// A word that is no option and stands behind none.
    pub fn of(word: &'a str, wanted: &'static str) -> Self {
        WordFault {
            option: None,
            word,
            wanted,
        }
    }
}
