//! The text of a wave as a line of a text.

ghost use Rattle.std.specs.Prelude.{◌≡◌, ◌≤◌, true, List, length};
ghost use Rattle.run_signal.specs.declared.tern.Tern.{Tern};
ghost use Rattle.base_text.specs.lines.Lines.{is_one_line};
ghost use Rattle.run_waves.specs.waves.Text.{runs_text};

/// The text of a wave has no line feed.
pub fn the_text_of_a_wave_is_one_line()
    ensures { (wave : List Tern) → length wave ≤ 4000 → is_one_line (runs_text wave) ≡ true }
{}
