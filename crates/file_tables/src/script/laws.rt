//! The laws of what a file of scripts says.

ghost use Rattle.std.specs.Prelude.{◌≡◌, ℕ, List, Ok};
ghost use Rattle.model_line.specs.declared.line.Line.{Line};
ghost use Rattle.file_tables.specs.script.ReadBack.{AreReadBack, AreShort};
ghost use Rattle.file_tables.specs.{script.Scripts.scripts_of, script.Values.AreOfOneFile, script.Values.ScriptValues};

/// The scripts that a file says are as many as one may hold, no two of one name.
pub fn a_file_says_scripts_of_one_file()
    ensures { (line : Line) (bytes : List ℕ) (scripts : List ScriptValues) →
        scripts_of line bytes ≡ Ok scripts → AreOfOneFile scripts }
{}

/// What is printed of scripts that fit a line and may stand in one file is read back as them.
pub fn printed_scripts_are_read_back()
    ensures { AreReadBack }
{}

/// What is printed of at most 64 scripts that fit a line is no longer than a file of scripts may be.
pub fn a_file_of_scripts_is_short()
    ensures { AreShort }
{}
