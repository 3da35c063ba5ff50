//! Channels that open for a while when they are lost, as formulas.

ghost use Rattle.std.specs.Prelude.{◌≡◌, ◌<◌, IfOk, List};
ghost use Rattle.model_logic.specs.Unblocking.{guard_seen as guard_seen_tree, late as late_tree};
ghost use Rattle.model_logic.specs.Unblocking.{unblocked as unblocked_tree};
ghost use Rattle.model_logic.specs.Unblocking.{locked_out as locked_out_tree};
ghost use Rattle.model_logic.specs.Unblocking.{open_from as open_from_tree};
ghost use Rattle.model_logic.specs.Unblocking.{all_open as all_open_tree};
ghost use Rattle.model_plain.specs.{Formulas.tree_of, Parts.IsClosed};
ghost use Rattle.model_line.specs.Parameters.{terminal_count};
ghost use Rattle.model_logic.specs.Tree.{Tree};

use crate::build::{and, not, or, seal, timer};
use crate::formula::Formula;
use crate::others::all_others;
use crate::received::received;
use base_memory::Memory;
use model_line::{Line, Setting};
use model_logic::{Join, Time, channel_time, channel_to};
use std::alloc::Global;

fn guard_seen(alloc: Global, line: &Line, k: u32, j: u32) -> Result<Formula, Memory>
    ensures { (parts : List Tree) → IfOk result (λ f. tree_of parts f
        ≡ guard_seen_tree line.now k j) }
{
    let channel = channel_to(line, k, j);
    let silent = not(alloc, Ok(Formula::Raw(channel)));
    let safe = not(alloc, Ok(Formula::Loss(channel)));
    and(alloc, silent, safe)
}

fn late(alloc: Global, line: &Line, k: u32, j: u32) -> Result<Formula, Memory>
    ensures { (parts : List Tree) → IfOk result (λ f. tree_of parts f
        ≡ late_tree line.now k j) }
{
    let lost = Formula::Loss(channel_to(line, k, j));
    let window = channel_time(line, k, j, Setting::UnblockWindow);
    timer(alloc, Ok(lost), window, Time::Zero)
}

/// The channel to `k` from `j` is lost, and its window is open.
pub fn unblocked(alloc: Global, line: &Line, k: u32, j: u32) -> Result<Formula, Memory>
    ensures { (parts : List Tree) → IfOk result (λ f. tree_of parts f
        ≡ unblocked_tree line.now k j) }
{
    let lost = Formula::Loss(channel_to(line, k, j));
    let pickup = channel_time(line, k, j, Setting::UnblockPickup);
    let opened = timer(alloc, Ok(lost), pickup, Time::Zero);
    let closed = late(alloc, line, k, j);
    and(alloc, opened, not(alloc, closed))
}

/// Its window closed, and the guard tone has not come back for long enough since.
pub fn locked_out(alloc: Global, line: &Line, k: u32, j: u32) -> Result<Formula, Memory>
    ensures { (parts : List Tree) → IfOk result (λ f. tree_of parts f
        ≡ locked_out_tree line.now k j) }
{
    let guard = guard_seen(alloc, line, k, j);
    let restore = channel_time(line, k, j, Setting::UnblockRestore);
    let restored = timer(alloc, guard, restore, Time::Zero);
    let closed = late(alloc, line, k, j);
    seal(alloc, closed, not(alloc, restored))
}

fn open_from(alloc: Global, line: &Line, k: u32, j: u32) -> Result<Formula, Memory>
    ensures { IfOk result (IsClosed (open_from_tree line.now k j)) }
{
    let sent = received(alloc, line, k, j);
    let open = or(alloc, sent, unblocked(alloc, line, k, j));
    let locked = locked_out(alloc, line, k, j);
    and(alloc, open, not(alloc, locked))
}

#[tactic(auto, unfolding(model_logic::specs::Unblocking::all_open))]
pub fn all_open(alloc: Global, line: &Line, k: u32) -> Result<Formula, Memory>
    requires { k < terminal_count line.now }
    ensures { (parts : List Tree) → IfOk result (λ f. tree_of parts f
        ≡ all_open_tree line.now k) }
{
    all_others(alloc, line, k, Join::And, |j| open_from(alloc, line, k, j))
}
