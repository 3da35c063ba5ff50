//! What the parameter field of a record names.

/// Nothing, a parameter by its number, or the step of a delay with its tick.
#[derive(Clone, Copy)]
pub enum Named {
    Nothing,
    Number(u32),
    Step(u32, u32),
}
