//! The laws of the names of a line's parameters.

ghost use Rattle.model_line.specs.declared.line.Line.{Line};
ghost use Rattle.model_names.specs.ParamNamesApart.{ParamNamesApart};

/// Each parameter of a line has a name of its own, in which there is no `@`.
pub fn parameters_have_names_of_their_own()
    ensures { (line : Line) → ParamNamesApart line }
{}
