//! A file of the call.

/// A file by its name and its bytes; none where it has more than a file may have.
#[derive(Drop)]
pub struct GivenFile<'a> {
    pub name: &'a str,
    pub bytes: Option<Vec<u8>>,
}

impl<'a> GivenFile<'a> {
    ghost use Rattle.std.specs.Prelude.{◌≡◌};
    ghost use Rattle.call_inspect.specs.Given.{content as content_of};

    /// Its bytes, none where it has too many.
    pub fn content(&self) -> &[u8]
        ensures { result.now ≡ content_of self.now }
    {
        match &self.bytes {
            Some(bytes) => bytes.as_slice(),
            None => &[],
        }
    }
}
