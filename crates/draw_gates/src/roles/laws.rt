//! The law of roles.

ghost use Rattle.std.specs.Prelude.{◌≡◌, ℕ, List, IsTrue};
ghost use Rattle.model_line.specs.declared.line.Line.{Line};
ghost use Rattle.net_gates.specs.{declared.gate.Gate.Gate, Formulas.formula_of};
ghost use Rattle.model_plain.specs.{declared.role.Role.Role, Roles.role_tree};
ghost use Rattle.draw_gates.specs.roles.Lookup.{has_role};

/// A gate that has a role stands for its tree.
pub fn a_role_stands_for_its_tree()
    ensures { (line : Line) (gates : List Gate) (role : Role) (i : ℕ) →
        IsTrue (has_role line gates role i) → formula_of gates i ≡ role_tree line role }
{}
