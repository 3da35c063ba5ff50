//! Whether each ordered pair of terminals has a channel.

ghost use Rattle.std.specs.Prelude.{◌≡◌, ◌<◌, ◌≤◌, length};
ghost use Rattle.model_line.specs.ParamNames.{name_at};
ghost use Rattle.file_line.specs.LineFiles.{two_pairs, three_pairs, pair_joined, all_joined, whole};

use crate::channel::has_pair;
use file_document::DocumentFault;
use model_line::{Channel, Name, Terminal};

fn name(terminals: &[Terminal], place: u32) -> Name
    requires { place < length terminals.now }
    ensures { result ≡ name_at terminals.now place }
{
    terminals[place as usize].name
}

fn joined(
    terminals: &[Terminal],
    channels: &[Channel],
    from: u32,
    to: u32,
) -> Result<(), DocumentFault>
    requires from { from < length terminals.now }
    requires to { to < length terminals.now }
    ensures { result ≡ pair_joined terminals.now channels.now from to }
{
    if has_pair(channels, from, to) {
        Ok(())
    } else {
        Err(DocumentFault::Channels(name(terminals, from), name(terminals, to)))
    }
}

fn two_joined(terminals: &[Terminal], channels: &[Channel]) -> Result<(), DocumentFault>
    requires { length terminals.now ≡ 2 }
    ensures { result ≡ all_joined terminals.now channels.now two_pairs }
{
    joined(terminals, channels, 0, 1)?;
    joined(terminals, channels, 1, 0)?;
    Ok(())
}

fn three_joined(terminals: &[Terminal], channels: &[Channel]) -> Result<(), DocumentFault>
    requires { length terminals.now ≡ 3 }
    ensures { result ≡ all_joined terminals.now channels.now three_pairs }
{
    joined(terminals, channels, 0, 1)?;
    joined(terminals, channels, 0, 2)?;
    joined(terminals, channels, 1, 0)?;
    joined(terminals, channels, 1, 2)?;
    joined(terminals, channels, 2, 0)?;
    joined(terminals, channels, 2, 1)?;
    Ok(())
}

/// Refuses the first pair of terminals, by sender and then by receiver, that has no channel.
#[tactic(auto, unfolding(crate::specs::LineFiles::whole))]
pub fn all_joined(terminals: &[Terminal], channels: &[Channel]) -> Result<(), DocumentFault>
    requires some { 2 ≤ length terminals.now }
    requires few { length terminals.now ≤ 3 }
    ensures { result ≡ whole terminals.now channels.now }
{
    if terminals.len() == 2 {
        two_joined(terminals, channels)
    } else {
        three_joined(terminals, channels)
    }
}
