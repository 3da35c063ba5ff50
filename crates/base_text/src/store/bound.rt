//! The bound on how much one pull gives or one push takes.
ghost use Rattle.std.specs.Prelude.{◌≡◌};
ghost use Rattle.base_text.specs.store.Bound.{at_most};

/// The amount, cut to the bound if there is one.
pub fn at_most(bound: Option<u32>, amount: usize) -> usize
    ensures { result ≡ at_most bound amount }
{
    match bound {
        Some(most) => amount.min(most as usize),
        None => amount,
    }
}
