//! When a relay keys and trips.

ghost use Rattle.std.specs.Prelude.{◌≡◌, ◌<◌};
ghost use Rattle.model_line.specs.{declared.line.Line.Line, declared.script.Script.Script};
ghost use Rattle.model_line.specs.Parameters.{terminal_count};
ghost use Rattle.model_logic.specs.Choice.{declared_box};
ghost use Rattle.run_step.specs.Runs.{IsTheHistory};
ghost use Rattle.judge_verdict.specs.verdict.PairWavesOf.{pair_history};
ghost use Rattle.call_shots.specs.Windows.{IsWindow};

use judge_verdict::verdict::PairWaves;
use run_waves::waves::{first_may, first_must};

/// The first ticks at which a terminal may key and trip, and by which it must have, over every choice
/// of times; none where it never may, or need not.
#[derive(Clone, Copy)]
pub struct Window {
    pub key_may: Option<u32>,
    pub key_must: Option<u32>,
    pub trip_may: Option<u32>,
    pub trip_must: Option<u32>,
}

/// The window of a terminal, over the interval history of a script.
pub fn window_of(waves: &PairWaves, terminal: u32) -> Window
    requires { terminal < waves.now.terminals }
    ensures { (line : Line) (script : Script) → waves.now.terminals ≡ terminal_count line →
        waves.now.horizon ≡ line.horizon →
        IsTheHistory line script (declared_box line) (pair_history waves.now) →
        IsWindow line script terminal result }
{
    Window {
        key_may: first_may(waves.key_runs(terminal)),
        key_must: first_must(waves.key_runs(terminal)),
        trip_may: first_may(waves.trip_runs(terminal)),
        trip_must: first_must(waves.trip_runs(terminal)),
    }
}
