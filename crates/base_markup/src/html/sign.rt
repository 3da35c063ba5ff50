//! Signs that are no ASCII.

ghost use Rattle.std.specs.Prelude.{◌≡◌};
ghost use Rattle.base_markup.specs.html.Names.{sign_text};

/// A sign, which stands as a reference to its character.
#[derive(Clone, Copy)]
pub enum Sign {
    Check,
    Cross,
    Dash,
    Question,
}

impl Sign {
    /// The reference.
    pub fn reference(self) -> &'static [u8]
        ensures { result.now ≡ sign_text self }
    {
        match self {
            Sign::Check => b"&#10003;",
            Sign::Cross => b"&#10007;",
            Sign::Dash => b"&#8211;",
            Sign::Question => b"&#63;",
        }
    }
}
