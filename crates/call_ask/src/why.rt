//! What a reason is asked for.

/// The fault and the terminal whose obligations are asked about, all where none is named; how it is told;
/// and how many analyses each obligation takes at most.
#[derive(Clone, Copy)]
pub struct WhyAsk<'a> {
    pub fault: Option<&'a str>,
    pub terminal: Option<&'a str>,
    pub form: WhyForm<'a>,
    pub analyses: u32,
}

/// As words, or as the timing diagram of the choice that they tell, which says in these words what made
/// it, and the words of the reason behind them.
#[derive(Clone, Copy)]
pub enum WhyForm<'a> {
    Words,
    Diagram { made: &'a [u8] },
}
