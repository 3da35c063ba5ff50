//! Whether every choice fails an obligation.

ghost use Rattle.std.specs.Prelude.{◌≡◌, ◌<◌};
ghost use Rattle.model_line.specs.{Fits.Fits, Parameters.terminal_count};
ghost use Rattle.model_logic.specs.Choice.{declared_box};
ghost use Rattle.run_step.specs.Runs.{IsTheHistory};
ghost use Rattle.judge_verdict.specs.verdict.PairWavesOf.{pair_history};
ghost use Rattle.judge_settle.specs.settle.Answers.{FailsFor};

use judge_verdict::verdict::{PairWaves, Rule, judge};
use model_fine::fine_laws::the_rule_speaks_for_every_fine_choice;
use model_line::{Line, Script};
use model_logic::laws::line_laws;
use model_settle::polarity_laws::the_best_choice_meets;

/// Whether the interval rules break the obligation of a terminal, so that every choice fails it. The
/// waves are over the interval history of the script.
pub fn fails_for_every(line: &Line, script: &Script, waves: &PairWaves, terminal: u32) -> bool
    requires fits { Fits line.now script.now }
    requires terminal { terminal < terminal_count line.now }
    requires terminals { waves.now.terminals ≡ terminal_count line.now }
    requires horizon { waves.now.horizon ≡ line.now.horizon }
    requires history { IsTheHistory line.now script.now (declared_box line.now)
        (pair_history waves.now) }
    ensures { FailsFor line.now script.now terminal result }
{
    line_laws();
    the_best_choice_meets();
    the_rule_speaks_for_every_fine_choice();
    match judge(waves, script, terminal) {
        Rule::Broken => true,
        Rule::Held => false,
        Rule::Unknown => false,
    }
}
