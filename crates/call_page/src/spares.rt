//! What an external fault has to spare at each terminal.

ghost use Rattle.std.specs.Prelude.{◌≡◌, ◌≤◌, ◌<◌, ◌+◌, ◌^◌, Some, IfOk, length, slice_get};
ghost use Rattle.model_line.specs.Parameters.{terminal_count};
ghost use Rattle.judge_verdict.specs.verdict.OneEach.{OneEach};
ghost use Rattle.call_facts.specs.Spares.{IsSpareBy, IsSpareOf};
ghost use Rattle.call_page.specs.{Facts.AreKnown, Verdicts.IsSpareOfFault, Verdicts.own_scripts};

use crate::known::Known;
use crate::parts::Part;
use call_facts::spare_at;
use judge_races::all_waves;
use model_line::{Kind, Memory, Script};
use net_gates::Compiled;
use std::alloc::Global;

/// What the scripts of a part have to spare at each terminal, in line order.
pub fn spares(alloc: Global, known: &Known<'_>, part: Part) -> Result<Vec<Option<u32>>, Memory>
    requires known { AreKnown known.now }
    requires some { 1 ≤ part.count }
    requires within { part.start + part.count ≤ length known.now.study.now.scripts.items }
    ensures { IfOk result (λ spares. OneEach (IsSpareOfFault known.now.study.now.line
        (own_scripts known.now.study.now.scripts.items part.start part.count))
        (terminal_count known.now.study.now.line) spares.items) }
{
    let study = known.study;
    let scripts = study.scripts.as_slice();
    let own = &scripts[part.start..part.start + part.count];
    let compiled = Compiled {
        line: &study.line,
        net: &study.net,
    };
    spares_of(alloc, &compiled, own)
}

fn spares_of(
    alloc: Global,
    compiled: &Compiled<'_>,
    own: &[Script],
) -> Result<Vec<Option<u32>>, Memory>
    requires some { 1 ≤ length own.now }
    requires counted { length own.now < 2 ^ 32 }
    ensures { IfOk result (λ spares. OneEach (IsSpareOfFault compiled.now.line.now own.now)
        (terminal_count compiled.now.line.now) spares.items) }
{
    match own[0].kind {
        Kind::Internal => none_each(alloc, compiled),
        Kind::External => external_spares(alloc, compiled, own),
    }
}

// Of an internal fault nothing, at each terminal.
fn none_each(alloc: Global, compiled: &Compiled<'_>) -> Result<Vec<Option<u32>>, Memory>
    ensures { IfOk result (λ spares. OneEach (λ k spare. spare ≡ None)
        (terminal_count compiled.now.line.now) spares.items) }
{
    let mut spares = Vec::new(alloc);
    for _k in 0..compiled.line.terminals.len() {
        spares.push(None)?;
    }
    Ok(spares)
}

fn external_spares(
    alloc: Global,
    compiled: &Compiled<'_>,
    own: &[Script],
) -> Result<Vec<Option<u32>>, Memory>
    requires counted { length own.now < 2 ^ 32 }
    ensures { IfOk result (λ spares. OneEach (IsSpareOf compiled.now.line.now own.now)
        (terminal_count compiled.now.line.now) spares.items) }
{
    let waves = all_waves(alloc, compiled, own)?;
    let mut spares = Vec::new(alloc);
    for k in 0..compiled.line.terminals.len() {
        let spare = spare_at(alloc, compiled, waves.as_slice(), k as u32)?;
        spares.push(spare)?;
    }
    Ok(spares)
}
