//! The page of a study: every obligation answered, first ticks, margins, diagrams and failing
//! choices as one value, and the text of it.
//!
//! `specs/Pages.antt` says what stands on it; the other files of `specs/` say each part.
#![tactic(auto)]

mod case;
mod choice;
mod choices;
mod fault;
mod files;
mod head;
mod known;
mod page;
mod parts;
mod said;
mod sources;
mod spares;
mod stretch;
mod undecided;
mod verdict;
mod worst;

pub use said::{Asked, Source, page_said};
