//! The lesser of two numbers of ticks.

ghost use Rattle.std.specs.Prelude.{ℕ, ◌≤◌};

/// The lesser of two numbers.
pub fn lesser(a: u32, b: u32) -> u32
    ensures first { result ≤ a }
    ensures second { result ≤ b }
    ensures least { (c : ℕ) → c ≤ a → c ≤ b → c ≤ result }
    ensures some { 1 ≤ a → 1 ≤ b → 1 ≤ result }
{
    if a < b { a } else { b }
}
