//! The first tick at which a wave is on.
#![tactic(auto)]

ghost use Rattle.std.specs.Prelude.{◌≡◌, ◌<◌, ◌≤◌, Bool, IfSome, length};
ghost use Rattle.model_history.specs.Rails.{Rails};
ghost use Rattle.run_signal.specs.declared.tern.Tern.{Tern};
ghost use Rattle.run_waves.specs.waves.FirstTick.{first_on, IsFirstOn};
ghost use Rattle.run_waves.specs.waves.Waves.{wave_at, Tells};

use crate::waves::cursor::Cursor;
use crate::waves::runs::Runs;
use run_signal::{Signal, Tern};

/// The first tick at which the wave must be on.
pub fn first_must(wave: &Runs) -> Option<u32>
    ensures first { result ≡ first_on (λ t. (wave_at wave.now t).must) (length wave.now) }
    ensures within { IfSome result (λ t. t < length wave.now) }
{
    first_from(wave.cursor(), 0, wave.len(), |level| level.must(0))
}

/// The first tick at which the wave may be on.
pub fn first_may(wave: &Runs) -> Option<u32>
    ensures first { result ≡ first_on (λ t. (wave_at wave.now t).may) (length wave.now) }
    ensures within { IfSome result (λ t. t < length wave.now) }
{
    first_from(wave.cursor(), 0, wave.len(), |level| level.may(0))
}

/// The first tick from that one on before the end at which the value is one of these.
pub(crate) fn first_from<F>(mut wave: Cursor<'_>, from: u32, end: u32, is: F) -> Option<u32>
where
    F: Fn(Tern) -> bool,
    requires known { end ≤ length wave }
    requires callable { (level : Tern) → F.pre is level }
    ensures { (rail : Rails → Bool) → Tells (F.post is) rail →
        IsFirstOn (λ t. rail (wave_at wave.entry t)) from end result }
{
    let mut t = from;
    'stretches: while t < end {
        let run = wave.stretch(t);
        if is(run.level) {
            return Some(t);
        }
        t = run.end;
    }
    None
}
