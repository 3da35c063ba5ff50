//! A step of a delay.

/// From tick `from` on the delay with this number among the parameters has this value.
#[derive(Clone, Copy)]
pub struct Step<P> {
    pub param: u32,
    pub from: u32,
    pub value: P,
}
