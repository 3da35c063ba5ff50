//! Whether terminals may stand in a line.

ghost use Rattle.std.specs.Prelude.{◌≡◌, ◌↔◌, length, IsTrue};
ghost use Rattle.std.specs.List.{list_all};
ghost use Rattle.model_line.specs.Terminals.{are_plain_names, NamesDiffer, flags_fit, has_flags};
ghost use Rattle.model_line.specs.Terminals.{has_no_flag};
ghost use Rattle.model_line.specs.Making.{AreTerminals};

use crate::line::{Scheme, Terminal};
use crate::name::{Name, is_plain};

/// Whether these are two or three terminals, each with a plain name of its own, weak or guarded as
/// the scheme lets.
pub fn are_terminals(scheme: Scheme, terminals: &[Terminal]) -> bool
    ensures { IsTrue result ↔ AreTerminals scheme terminals.now }
{
    if terminals.len() < 2 || terminals.len() > 3 {
        return false;
    }
    if !all_plain(terminals) || !flags_stand(scheme, terminals) {
        return false;
    }
    all_differ(terminals)
}

// Whether each name is plain.
fn all_plain(terminals: &[Terminal]) -> bool
    ensures { result ≡ are_plain_names terminals.now }
{
    terminals.iter().all(|t| is_plain(t.name.bytes()))
}

// Whether no two names are the same.
fn all_differ(terminals: &[Terminal]) -> bool
    ensures { IsTrue result ↔ NamesDiffer terminals.now (length terminals.now) }
{
    for k in 0..terminals.len() {
        for j in 0..k {
            if is_same(terminals[j].name, terminals[k].name) {
                return false;
            }
        }
    }
    true
}

fn is_same(a: Name, b: Name) -> bool
    ensures { IsTrue result ↔ (a ≡ b) }
{
    a == b
}

// Whether terminals may be weak or guarded as these are in this scheme.
fn flags_stand(scheme: Scheme, terminals: &[Terminal]) -> bool
    ensures { result ≡ flags_fit scheme terminals.now }
{
    may_have_flags(scheme) || no_flags(terminals)
}

fn no_flags(terminals: &[Terminal]) -> bool
    ensures { result ≡ list_all has_no_flag terminals.now }
{
    terminals.iter().all(|t| !(t.weak || t.guard))
}

/// Whether terminals of the scheme may be weak or guarded.
pub fn may_have_flags(scheme: Scheme) -> bool
    ensures { result ≡ has_flags scheme }
{
    matches!(scheme, Scheme::Pott | Scheme::Dcub)
}
