//! Of certificates, trees of splits and settled trees, which a line and its scripts are needed for.

ghost use Rattle.std.specs.Prelude.{IfOk};
ghost use Rattle.call_lint.specs.lint.Outcomes.{IsSaid};
ghost use Rattle.call_inspect.specs.Found.{Against, AreSplitsFound, AreTreesFound, IsCertificateFound};
ghost use Rattle.call_inspect.specs.Grounds.{scripts_in};

use crate::alone::{without_line, without_scripts};
use crate::ground::{Ground, LineGround, few_scripts};
use base_memory::{Memory, Stopped};
use call_lint::lint::Linted;
use call_refused::refused_text;
use cert_claims::text::read_certificate;
use cert_settle::read_settle_text;
use cert_split::text::read_split_text;
use std::alloc::Global;

/// What is found in a certificate.
pub fn certificate_found(
    alloc: Global,
    ground: &Ground<'_, '_>,
    name: &str,
    bytes: &[u8],
) -> Result<Linted, Memory>
    ensures found { IfOk result (λ linted.
        Against (IsCertificateFound bytes.now) ground.now linted.outcome) }
    ensures said { IfOk result (λ linted.
        IsSaid name.now bytes.now linted.outcome linted.text.items) }
{
    match ground {
        Ground::Nothing => without_line(alloc, name, bytes),
        Ground::Refused => Ok(Linted::clean(alloc)),
        Ground::Line(own) => certificate_of(alloc, own, name, bytes),
    }
}

fn certificate_of(
    alloc: Global,
    own: &LineGround<'_, '_>,
    name: &str,
    bytes: &[u8],
) -> Result<Linted, Memory>
    ensures found { IfOk result (λ linted.
        IsCertificateFound bytes.now own.now.line (scripts_in own.now.scripts) linted.outcome) }
    ensures said { IfOk result (λ linted.
        IsSaid name.now bytes.now linted.outcome linted.text.items) }
{
    let Some(scripts) = few_scripts(own) else {
        return without_scripts(alloc, name, bytes);
    };
    match read_certificate(alloc, &own.line, scripts, bytes) {
        Ok(_) => Ok(Linted::clean(alloc)),
        Err(Stopped::Memory) => Err(Memory),
        Err(Stopped::Fault(fault)) => Ok(Linted::refused(refused_text(
            alloc,
            name,
            bytes,
            &(fault.line as usize),
        )?)),
    }
}

/// What is found in trees of splits.
pub fn splits_found(
    alloc: Global,
    ground: &Ground<'_, '_>,
    name: &str,
    bytes: &[u8],
) -> Result<Linted, Memory>
    ensures found { IfOk result (λ linted.
        Against (AreSplitsFound bytes.now) ground.now linted.outcome) }
    ensures said { IfOk result (λ linted.
        IsSaid name.now bytes.now linted.outcome linted.text.items) }
{
    match ground {
        Ground::Nothing => without_line(alloc, name, bytes),
        Ground::Refused => Ok(Linted::clean(alloc)),
        Ground::Line(own) => splits_of(alloc, own, name, bytes),
    }
}

fn splits_of(
    alloc: Global,
    own: &LineGround<'_, '_>,
    name: &str,
    bytes: &[u8],
) -> Result<Linted, Memory>
    ensures found { IfOk result (λ linted.
        AreSplitsFound bytes.now own.now.line (scripts_in own.now.scripts) linted.outcome) }
    ensures said { IfOk result (λ linted.
        IsSaid name.now bytes.now linted.outcome linted.text.items) }
{
    let Some(scripts) = few_scripts(own) else {
        return without_scripts(alloc, name, bytes);
    };
    match read_split_text(alloc, &own.line, scripts, bytes) {
        Ok(_) => Ok(Linted::clean(alloc)),
        Err(Stopped::Memory) => Err(Memory),
        Err(Stopped::Fault(fault)) => Ok(Linted::refused(refused_text(
            alloc,
            name,
            bytes,
            &(fault.line as usize),
        )?)),
    }
}

/// What is found in settled trees.
pub fn trees_found(
    alloc: Global,
    ground: &Ground<'_, '_>,
    name: &str,
    bytes: &[u8],
) -> Result<Linted, Memory>
    ensures found { IfOk result (λ linted.
        Against (AreTreesFound bytes.now) ground.now linted.outcome) }
    ensures said { IfOk result (λ linted.
        IsSaid name.now bytes.now linted.outcome linted.text.items) }
{
    match ground {
        Ground::Nothing => without_line(alloc, name, bytes),
        Ground::Refused => Ok(Linted::clean(alloc)),
        Ground::Line(own) => trees_of(alloc, own, name, bytes),
    }
}

fn trees_of(
    alloc: Global,
    own: &LineGround<'_, '_>,
    name: &str,
    bytes: &[u8],
) -> Result<Linted, Memory>
    ensures found { IfOk result (λ linted.
        AreTreesFound bytes.now own.now.line (scripts_in own.now.scripts) linted.outcome) }
    ensures said { IfOk result (λ linted.
        IsSaid name.now bytes.now linted.outcome linted.text.items) }
{
    let Some(scripts) = few_scripts(own) else {
        return without_scripts(alloc, name, bytes);
    };
    match read_settle_text(alloc, &own.line, scripts, bytes) {
        Ok(_) => Ok(Linted::clean(alloc)),
        Err(Stopped::Memory) => Err(Memory),
        Err(Stopped::Fault(fault)) => Ok(Linted::refused(refused_text(
            alloc,
            name,
            bytes,
            &(fault.line as usize),
        )?)),
    }
}
