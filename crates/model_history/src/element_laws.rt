//! The elements over one history.
#![tactic(auto)]

ghost use Rattle.model_history.specs.Laws.{TestsAreTheirFacts, ElementsAreTheirFacts};
ghost use Rattle.model_history.specs.Laws.{ElementsReadThePast, ElementsGrow};

/// A test of every number below another, or of some, is what it says.
pub fn tests_are_their_facts()
    ensures { TestsAreTheirFacts }
{}

/// The truth values are what the facts of their names say.
pub fn elements_are_their_facts()
    ensures { ElementsAreTheirFacts }
{}

/// Only the ticks so far matter.
pub fn elements_read_the_past()
    ensures { ElementsReadThePast }
{}

/// Where an input is on more often, and where the pickup is shorter or the dropout longer, an
/// element is on wherever it was.
pub fn elements_grow()
    ensures { ElementsGrow }
{}
