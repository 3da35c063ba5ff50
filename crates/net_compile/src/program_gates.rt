//! The gates of a program: each part has its gate once.

ghost use Rattle.std.specs.Prelude.{◌≤◌, ◌+◌, [], length, IfOk};
ghost use Rattle.model_plain.specs.Formulas.{operations_of, program_operations};
ghost use Rattle.net_compile.specs.Growing.{ExtendsByParts, ExtendsByProgram};
ghost use Rattle.net_compile.specs.Compiled.{AreEnds, ArePartGates};

use crate::builder::NetBuilder;
use crate::formula_gates::compile_formula;
use model_line::Memory;
use model_plain::{Formula, Program};
use net_gates::GateId;
use std::alloc::Global;

/// The gates of what a terminal sends and of its trip.
#[derive(Clone, Copy)]
pub struct Ends {
    pub key: GateId,
    pub trip: GateId,
}

/// The gates of a program's parts, then of its key and its trip over them.
pub fn compile_program(
    alloc: Global,
    net: &mut NetBuilder,
    program: &Program,
) -> Result<Ends, Memory>
    requires room { length net.old + program_operations program.now ≤ 512 }
    ensures adds { ExtendsByProgram program.now net.old net.new }
    ensures made { IfOk result (AreEnds program.now net.new) }
{
    let parts = part_gates(alloc, net, &program.parts)?;
    let key = compile_formula(net, &parts, &program.key)?;
    let trip = compile_formula(net, &parts, &program.trip)?;
    Ok(Ends { key, trip })
}

// The gates of parts, each over those before it.
fn part_gates(alloc: Global, net: &mut NetBuilder, parts: &[Formula]) -> Result<Vec<GateId>, Memory>
    requires room { length net.old + operations_of parts.now ≤ 512 }
    ensures adds { ExtendsByParts parts.now net.old net.new }
    ensures made { IfOk result (λ ids. ArePartGates parts.now net.new ids.items) }
{
    let mut ids = Vec::new(alloc);
    for part in parts {
        let id = compile_formula(net, &ids, part)?;
        ids.push(id)?;
    }
    Ok(ids)
}
