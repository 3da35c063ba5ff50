//! The numbers of terminals, channels, parameters and scripts by their names: each time that of the
//! first of the name.

ghost use Rattle.std.specs.Prelude.{◌≡◌, ◌<◌, length, IfSome};
ghost use Rattle.std.specs.List.{position_from};
ghost use Rattle.std.specs.Str.{bytes_eq};
ghost use Rattle.model_names.specs.NumbersByName.{terminal_named, channel_named, param_named};
ghost use Rattle.model_names.specs.NumbersByName.{script_named};
ghost use Rattle.model_line.specs.Parameters.{param_count};

use model_line::laws::parameters_are_numbered;
use model_line::{Line, Param, Script, Terminal, channel_name};

/// The number of the line's terminal of this name.
pub fn terminal_of_name(line: &Line, name: &[u8]) -> Option<u32>
    ensures { result ≡ terminal_named line.now name.now }
{
    let k = place_of_terminal(line.terminals.as_slice(), name)?;
    Some(k as u32)
}

fn place_of_terminal(terminals: &[Terminal], name: &[u8]) -> Option<usize>
    ensures place { result ≡ position_from (λ t. bytes_eq t.name name.now) 0 terminals.now }
    ensures within { IfSome result (λ k. k < length terminals.now) }
{
    terminals
        .iter()
        .position(|terminal| terminal.name.bytes() == name)
}

/// The number of the line's channel of this name, as `A>B`.
pub fn channel_of_name(line: &Line, name: &[u8]) -> Option<u32>
    ensures { result ≡ channel_named line.now name.now }
{
    for (c, channel) in line.channels.iter().enumerate() {
        let own = channel_name(line.terminals.as_slice(), *channel);
        if own.bytes() == name {
            return Some(c as u32);
        }
    }
    None
}

/// The number of the line's parameter of this name.
pub fn parameter_of_name(line: &Line, name: &[u8]) -> Option<u32>
    ensures number { result ≡ param_named line.now name.now }
    ensures within { IfSome result (λ i. i < param_count line.now) }
{
    parameters_are_numbered();
    let i = place_of_parameter(line.params.as_slice(), name)?;
    Some(i as u32)
}

fn place_of_parameter(params: &[Param], name: &[u8]) -> Option<usize>
    ensures place { result ≡ position_from (λ p. bytes_eq p.name name.now) 0 params.now }
    ensures within { IfSome result (λ i. i < length params.now) }
{
    params.iter().position(|param| param.name.bytes() == name)
}

/// The place of the script of this name.
pub fn script_of_name(scripts: &[Script], name: &[u8]) -> Option<usize>
    ensures place { result ≡ script_named scripts.now name.now }
    ensures within { IfSome result (λ s. s < length scripts.now) }
{
    scripts
        .iter()
        .position(|script| script.name.bytes() == name)
}
