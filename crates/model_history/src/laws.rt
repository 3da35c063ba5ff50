//! All laws of histories in one.
#![tactic(auto)]

ghost use Rattle.model_history.specs.Laws.{HistoryLaws};

use crate::delay_laws::{
    delays_are_their_facts, delays_at_single_numbers, delays_cover, delays_read_earlier_ticks,
    delays_stay_sound, one_delay_reads_one_tick,
};
use crate::element_laws::{
    elements_are_their_facts, elements_grow, elements_read_the_past, tests_are_their_facts,
};
use crate::rails_laws::{
    covering_is_an_order, rails_at_single_numbers, rails_cover_rails, rails_cover_values,
    rails_read_the_past, rails_stay_sound,
};
use crate::recorded_laws::{recorded_ticks_suffice, recordings_give_their_ticks};

/// Every law of this crate, for a proof that rests on several.
pub fn history_laws()
    ensures { HistoryLaws }
{
    tests_are_their_facts();
    elements_are_their_facts();
    elements_read_the_past();
    elements_grow();
    delays_are_their_facts();
    one_delay_reads_one_tick();
    delays_read_earlier_ticks();
    delays_cover();
    delays_stay_sound();
    delays_at_single_numbers();
    covering_is_an_order();
    rails_cover_values();
    rails_cover_rails();
    rails_stay_sound();
    rails_at_single_numbers();
    rails_read_the_past();
    recordings_give_their_ticks();
    recorded_ticks_suffice();
}
