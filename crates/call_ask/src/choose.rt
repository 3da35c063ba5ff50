//! What choices are asked for.

/// The words of the settings, none for those of the line, and how many ticks of room there are to be to
/// the bounds of a range, if room is asked for.
#[derive(Clone, Copy)]
pub struct ChooseAsk<'a> {
    pub settings: &'a [&'a str],
    pub room: Option<u32>,
}
