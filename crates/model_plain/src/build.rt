//! One more gate on top of formulas, where memory may have been wanting for any.

ghost use Rattle.std.specs.Prelude.{◌≡◌, IfOk, List};
ghost use Rattle.model_plain.specs.Formulas.{tree_of};
ghost use Rattle.model_logic.specs.Tree.{Tree, Not, And, Or, Timer, Seal};

use crate::formula::Formula;
use base_memory::Memory;
use model_logic::Time;
use std::alloc::Global;

pub fn not(alloc: Global, x: Result<Formula, Memory>) -> Result<Formula, Memory>
    ensures { (parts : List Tree) (t : Tree) → IfOk x (λ f. tree_of parts f ≡ t)
        → IfOk result (λ f. tree_of parts f ≡ Not t) }
{
    Ok(Formula::Not(boxed(alloc, x)?))
}

pub fn and(
    alloc: Global,
    x: Result<Formula, Memory>,
    y: Result<Formula, Memory>,
) -> Result<Formula, Memory>
    ensures { (parts : List Tree) (t u : Tree) → IfOk x (λ f. tree_of parts f ≡ t)
        → IfOk y (λ f. tree_of parts f ≡ u) → IfOk result (λ f. tree_of parts f ≡ And t u) }
{
    Ok(Formula::And(boxed(alloc, x)?, boxed(alloc, y)?))
}

pub fn or(
    alloc: Global,
    x: Result<Formula, Memory>,
    y: Result<Formula, Memory>,
) -> Result<Formula, Memory>
    ensures { (parts : List Tree) (t u : Tree) → IfOk x (λ f. tree_of parts f ≡ t)
        → IfOk y (λ f. tree_of parts f ≡ u) → IfOk result (λ f. tree_of parts f ≡ Or t u) }
{
    Ok(Formula::Or(boxed(alloc, x)?, boxed(alloc, y)?))
}

pub fn timer(
    alloc: Global,
    x: Result<Formula, Memory>,
    pickup: Time,
    dropout: Time,
) -> Result<Formula, Memory>
    ensures { (parts : List Tree) (t : Tree) → IfOk x (λ f. tree_of parts f ≡ t)
        → IfOk result (λ f. tree_of parts f ≡ Timer t pickup dropout) }
{
    Ok(Formula::Timer(boxed(alloc, x)?, pickup, dropout))
}

pub fn seal(
    alloc: Global,
    set: Result<Formula, Memory>,
    hold: Result<Formula, Memory>,
) -> Result<Formula, Memory>
    ensures { (parts : List Tree) (t u : Tree) → IfOk set (λ f. tree_of parts f ≡ t)
        → IfOk hold (λ f. tree_of parts f ≡ u) → IfOk result (λ f. tree_of parts f ≡ Seal t u) }
{
    Ok(Formula::Seal(boxed(alloc, set)?, boxed(alloc, hold)?))
}

fn boxed(alloc: Global, x: Result<Formula, Memory>) -> Result<Box<Formula>, Memory>
    ensures { (parts : List Tree) (t : Tree) → IfOk x (λ f. tree_of parts f ≡ t)
        → IfOk result (λ b. tree_of parts b.value ≡ t) }
{
    Ok(Box::new(alloc, x?)?)
}
