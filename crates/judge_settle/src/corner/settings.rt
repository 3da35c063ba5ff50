//! Which setting each parameter is.

ghost use Rattle.std.specs.Prelude.{◌≡◌, ◌++◌, IfOk, OnOk};
ghost use Rattle.std.specs.List.{flat_map};
ghost use Rattle.model_line.specs.Settings.{terminal_settings, channel_settings};
ghost use Rattle.judge_settle.specs.corner.Corner.{settings_in_order};

use model_line::{
    Channel, Line, Memory, Scheme, Setting, Terminal, groups_of_channel, groups_of_terminal,
};
use std::alloc::Global;

/// The setting that each parameter of the line is, in order.
pub fn settings_of(alloc: Global, line: &Line) -> Result<Vec<Setting>, Memory>
    ensures { IfOk result (λ settings. settings.items ≡ settings_in_order line.now) }
{
    let mut settings = Vec::new(alloc);
    let terminals = line.terminals.as_slice();
    push_terminals(&mut settings, line.scheme, terminals)?;
    let channels = line.channels.as_slice();
    push_channels(&mut settings, line.scheme, channels)?;
    Ok(settings)
}

fn push_terminals(
    settings: &mut Vec<Setting>,
    scheme: Scheme,
    terminals: &[Terminal],
) -> Result<(), Memory>
    ensures { OnOk result (settings.new.items
        ≡ settings.old.items ++ flat_map (λ t. terminal_settings scheme t) terminals.now) }
{
    for terminal in terminals {
        let groups = groups_of_terminal(scheme, terminal);
        push_groups(settings, &groups)?;
    }
    Ok(())
}

fn push_channels(
    settings: &mut Vec<Setting>,
    scheme: Scheme,
    channels: &[Channel],
) -> Result<(), Memory>
    ensures { OnOk result (settings.new.items
        ≡ settings.old.items ++ flat_map (λ _. channel_settings scheme) channels.now) }
{
    for _channel in channels {
        push_groups(settings, &groups_of_channel(scheme))?;
    }
    Ok(())
}

fn push_groups(settings: &mut Vec<Setting>, groups: &[&[Setting]]) -> Result<(), Memory>
    ensures { OnOk result (settings.new.items
        ≡ settings.old.items ++ flat_map (λ group. group.now) groups.now) }
{
    for group in groups {
        settings.extend_from_slice(group)?;
    }
    Ok(())
}
