//! Faults.

ghost use Rattle.std.specs.Prelude.{◌≡◌, ◌≤◌, ◌<◌, ◌+◌, IfOk, length};
ghost use Rattle.call_page.specs.{Facts.AreKnown, Faults.IsFaultOf};
ghost use Rattle.call_facts.specs.Lists.{EachOf};
ghost use Rattle.call_page.specs.Parts.{AreParts};

use crate::case::cases;
use crate::known::Known;
use crate::parts::{Part, name_from};
use crate::verdict::verdicts;
use crate::worst::shown;
use call_answer::text_of;
use call_facts::bands;
use draw_page::Fault;
use itoa::Buffer;
use model_line::Memory;
use net_gates::Compiled;
use std::alloc::Global;

/// The faults of these parts, in order.
pub fn faults(alloc: Global, known: &Known<'_>, parts: &[Part]) -> Result<Vec<Fault>, Memory>
    requires known { AreKnown known.now }
    requires parts { AreParts known.now.groups.now
        (length known.now.study.now.scripts.items) parts.now }
    ensures { IfOk result (λ faults. EachOf
        (IsFaultOf known.now.study.now.line known.now.study.now.scripts.items
        known.now.groups.now known.now.rows.now known.now.firsts.now) parts.now faults.items) }
{
    let mut faults = Vec::new(alloc);
    for part in parts {
        let fault = fault(alloc, known, *part)?;
        faults.push(fault)?;
    }
    Ok(faults)
}

fn fault(alloc: Global, known: &Known<'_>, part: Part) -> Result<Fault, Memory>
    requires known { AreKnown known.now }
    requires some { 1 ≤ part.count }
    requires within { part.start + part.count ≤ length known.now.study.now.scripts.items }
    ensures { IfOk result (IsFaultOf known.now.study.now.line
        known.now.study.now.scripts.items known.now.groups.now known.now.rows.now
        known.now.firsts.now part) }
{
    let study = known.study;
    let scripts = study.scripts.as_slice();
    let name = name_from(alloc, known.groups, scripts, part.start as u32)?;
    let worst = &scripts[part.start + shown(known, part)];
    let shown = Vec::from_slice(alloc, worst.name.bytes())?;
    let cases = cases(alloc, known, part)?;
    let verdicts = verdicts(alloc, known, part)?;
    let swept = swept_words(alloc, cases[0].swept.len())?;
    let compiled = Compiled {
        line: &study.line,
        net: &study.net,
    };
    let bands = bands(alloc, &compiled, worst)?;
    Ok(Fault {
        name,
        kind: scripts[part.start].kind,
        swept,
        cases,
        verdicts,
        bands,
        shown,
    })
}

// What the swept times are called, by their order: a study's groups know their values alone.
fn swept_words(alloc: Global, count: usize) -> Result<Vec<Vec<u8>>, Memory> {
    let mut words = Vec::new(alloc);
    for i in 0..count {
        let mut digits = Buffer::new();
        let number = digits.format(i as u64 + 1).as_bytes();
        words.push(text_of(alloc, &[b"swept time ", number])?)?;
    }
    Ok(words)
}
