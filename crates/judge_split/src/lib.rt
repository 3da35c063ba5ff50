//! The search for parts of the declared box in which an obligation is decided, where it is not over
//! the whole box: the box is split at the middle of its widest parameter, to a given depth.
#![tactic(auto)]

mod corners;
mod halves;
mod known;
mod laws;
mod leaf;
mod node;
mod part;
mod parts;
mod quick;
mod searching;
mod verdict;
mod widest;

pub use laws::{
    a_part_stands_for_its_box, a_sound_tree_splits_its_box,
    a_sound_tree_that_is_yes_speaks_for_every_choice, a_tree_that_is_yes_speaks_for_every_choice,
    each_choice_lies_in_one_leaf, leaves_that_are_held_speak_for_every_choice,
    middles_are_below_the_greatest_interval, what_a_search_finds_is_as_deep,
    what_a_search_finds_is_sound, what_fails_in_a_part_fails,
};
pub use node::{Node, Outcome};
pub use part::{can_split, lower_part, upper_part};
pub use searching::search;
