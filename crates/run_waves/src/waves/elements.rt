//! The timed element and the seal over whole waves.
#![tactic(auto)]

ghost use Rattle.std.specs.Prelude.{◌≡◌, ℕ, ◌<◌, ◌≤◌, List, [], ◌∷◌, ◌++◌, length, replicate, IfOk};
ghost use Rattle.model_history.specs.Rails.{Rails, rails_timed, rails_sealed, rails_at};
ghost use Rattle.run_signal.specs.Ahead.{next_rails};
ghost use Rattle.run_waves.specs.waves.Waves.{wave_at, IsWaveOf, StaysSteady};

use crate::waves::runs::Runs;
use model_history::laws::history_laws;
use model_line::Memory;
use run_signal::{
    SealCell, Tern, Timed, Within, a_seal_is_its_last_answer, elements_stay_in_a_stretch,
};
use std::alloc::Global;

/// The timed element over a wave, tick by tick. It goes from one tick at which its answer may
/// change to the next.
pub fn timer(alloc: Global, a: &Runs, pickup: Within, dropout: Within) -> Result<Runs, Memory>
    ensures { IfOk result (λ wave.
        IsWaveOf wave (length a.now) (λ t. rails_timed (wave_at a.now) pickup dropout t)) }
{
    if pickup.greatest() == 0 && dropout.greatest() == 0 {
        history_laws();
        let wave = a.copy(alloc)?;
        return Ok(wave);
    }
    timer_of_some(alloc, a, pickup, dropout)
}

// The same by cells, whatever the times.
fn timer_of_some(alloc: Global, a: &Runs, pickup: Within, dropout: Within) -> Result<Runs, Memory>
    ensures { IfOk result (λ wave.
        IsWaveOf wave (length a.now) (λ t. rails_timed (wave_at a.now) pickup dropout t)) }
{
    history_laws();
    elements_stay_in_a_stretch();
    let mut wave = Runs::new(alloc);
    let mut inputs = a.cursor();
    let mut cells = Tern::fresh(pickup, dropout);
    'stretches: while wave.len() < a.len() {
        let t = wave.len();
        let input = inputs.stretch(t);
        let count = steady_within::<Tern>(&cells, input.level, input.end - t);
        let answer = first_answer::<Tern>(&mut cells, input.level, count);
        wave.push(answer, count)?;
    }
    Ok(wave)
}

// For how many ticks with this input, at most so many, the answers stay the same.
fn steady_within<V: Timed>(cells: &V::Cells, input: V, most: u32) -> u32
    requires { 1 ≤ most }
    ensures within { result ≤ most }
    ensures steady { (pickup dropout : V.Span) (inputs : ℕ → List Rails) →
        ((lane : ℕ) → lane < V.signal.lanes →
        V.stands_for cells.now pickup dropout lane (inputs lane)) →
        StaysSteady V.signal.lanes
        (λ lane k. next_rails (V.signal.ends pickup lane) (V.signal.ends dropout lane)
        (inputs lane) (V.signal.rails input lane) k)
        result }
{
    if most == 1 {
        return 1;
    }
    let steady = V::ahead(cells, input);
    steady.min(most)
}

// Takes so many ticks with this input, and answers the timed element at the first of them.
fn first_answer<V: Timed>(cells: &mut V::Cells, input: V, count: u32) -> V
    requires some { 1 ≤ count }
    requires limited { count ≤ 4000 }
    ensures stands { (pickup dropout : V.Span) (lane : ℕ) (inputs : List Rails) →
        lane < V.signal.lanes → V.stands_for cells.old pickup dropout lane inputs →
        V.stands_for cells.new pickup dropout lane
        (inputs ++ replicate count (V.signal.rails input lane)) }
    ensures timed { (pickup dropout : V.Span) (lane : ℕ) (inputs : List Rails) →
        lane < V.signal.lanes → V.stands_for cells.old pickup dropout lane inputs →
        V.signal.rails result lane
        ≡ rails_timed (rails_at (inputs ++ V.signal.rails input lane ∷ []))
        (V.signal.ends pickup lane) (V.signal.ends dropout lane) (length inputs) }
{
    let answer = V::tick(cells, input);
    if count > 1 {
        V::skip(cells, input, count - 1);
    }
    answer
}

/// The seal of two waves of the same length, tick by tick.
pub fn seal(alloc: Global, set: &Runs, hold: &Runs) -> Result<Runs, Memory>
    requires { length hold.now ≡ length set.now }
    ensures { IfOk result (λ wave.
        IsWaveOf wave (length set.now) (λ t. rails_sealed (wave_at set.now) (wave_at hold.now) t)) }
{
    history_laws();
    a_seal_is_its_last_answer();
    elements_stay_in_a_stretch();
    let mut wave = Runs::new(alloc);
    let mut sets = set.cursor();
    let mut holds = hold.cursor();
    let mut cell = SealCell::<Tern>::new();
    'stretches: while wave.len() < set.len() {
        let t = wave.len();
        let first = sets.stretch(t);
        let second = holds.stretch(t);
        // Until one of the two changes, the seal stays as it is.
        let answer = cell.tick(first.level, second.level);
        wave.push(answer, first.end.min(second.end) - t)?;
    }
    Ok(wave)
}
