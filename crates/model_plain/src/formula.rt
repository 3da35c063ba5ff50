//! Formulas, which stand for trees, and programs, which name parts of them.

use model_line::Place;
use model_logic::Time;

#[derive(Drop)]
pub enum Formula {
    /// The part of this number. One that is not there is never on.
    Part(u32),
    Const(bool),
    Seen(Place),
    Loss(u32),
    Raw(u32),
    Not(Box<Formula>),
    And(Box<Formula>, Box<Formula>),
    Or(Box<Formula>, Box<Formula>),
    Timer(Box<Formula>, Time, Time),
    Seal(Box<Formula>, Box<Formula>),
}

/// What a terminal does: parts in order, each over those before it, and over all of them what the
/// terminal sends and what trips it.
#[derive(Drop)]
pub struct Program {
    pub parts: Vec<Formula>,
    pub key: Formula,
    pub trip: Formula,
}
