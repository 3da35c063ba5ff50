//! The names of terminals, parameters and scripts by their numbers, and the words of an element, of
//! a kind of fault, and of a scheme.

ghost use Rattle.std.specs.Prelude.{◌≡◌};
ghost use Rattle.model_line.specs.NamesByNumber.{terminal_name, parameter_name, script_name};
ghost use Rattle.model_line.specs.NamesByNumber.{element_text, kind_text, scheme_initials};

use crate::line::{Line, Scheme};
use crate::script::{Element, Kind, Script};

/// The name of the line's terminal of this number; empty if there is none.
pub fn name_of_terminal(line: &Line, terminal: u32) -> &[u8]
    ensures { result.now ≡ terminal_name line.now terminal }
{
    match line.terminals.get(terminal as usize) {
        Some(terminal) => terminal.name.bytes(),
        None => b"",
    }
}

/// The name of the line's parameter of this number; empty if there is none.
pub fn name_of_parameter(line: &Line, param: u32) -> &[u8]
    ensures { result.now ≡ parameter_name line.now param }
{
    match line.params.get(param as usize) {
        Some(param) => param.name.bytes(),
        None => b"",
    }
}

/// The name of the script of this number; empty if there is none.
pub fn name_of_script(scripts: &[Script], script: u32) -> &[u8]
    ensures { result.now ≡ script_name scripts.now script }
{
    match scripts.get(script as usize) {
        Some(script) => script.name.bytes(),
        None => b"",
    }
}

/// The word by which files and texts call an element.
pub fn element_word(element: Element) -> &'static [u8]
    ensures { result.now ≡ element_text element }
{
    match element {
        Element::Z1 => b"z1",
        Element::Z2 => b"z2",
        Element::Rv => b"rv",
        Element::Uv => b"uv",
        Element::Cur => b"cur",
    }
}

/// The word by which files and texts call a kind of fault.
pub fn kind_word(kind: Kind) -> &'static [u8]
    ensures { result.now ≡ kind_text kind }
{
    match kind {
        Kind::Internal => b"internal",
        Kind::External => b"external",
    }
}

/// The letters by which a scheme is known, as `POTT`.
pub fn scheme_word(scheme: Scheme) -> &'static [u8]
    ensures { result.now ≡ scheme_initials scheme }
{
    match scheme {
        Scheme::Pott => b"POTT",
        Scheme::Putt => b"PUTT",
        Scheme::Dcb => b"DCB",
        Scheme::Dcub => b"DCUB",
        Scheme::Dtt => b"DTT",
    }
}
