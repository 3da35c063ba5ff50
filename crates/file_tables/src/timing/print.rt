//! Printing timings as a file.

ghost use Rattle.std.specs.Prelude.{◌≡◌, ◌≤◌, ◌<◌, ◌∷◌, [], ◌++◌, ℕ, Ok, length, IfOk, OnOk, map};
ghost use Rattle.std.specs.List.{All};
ghost use Rattle.csv.specs.Writing.{row_text, default_writer};
ghost use Rattle.model_line.specs.Parameters.{param_count};
ghost use Rattle.file_tables.specs.script.Printed.{records_text};
ghost use Rattle.file_tables.specs.timing.Printed.{number_record, number_records, step_record};
ghost use Rattle.file_tables.specs.timing.Printed.{timing_records, file_records, MayStand};
ghost use Rattle.file_tables.specs.timing.Printed.{AreOfOneFile, steps_in};
ghost use Rattle.model_timing.specs.{declared.step.Step.Step};
ghost use Rattle.model_timing.specs.NamedValues.{values_of};
ghost use Rattle.file_tables.specs.timing.Timings.{timings_of};

use crate::timing::laws::{a_file_of_timings_is_short, timings_are_read_back};
use base_records::{Memory, push_record};
use base_text::pieces::text_of;
use itoa::Buffer;
use model_line::Line;
use model_line::laws::{delays_are_parameters, parameters_are_numbered};
use model_timing::{NamedTiming, Step};
use run_signal::Tick;
use std::alloc::Global;

/// The file of these timings: the header and each timing's records, its name alone, the number of
/// each parameter and each step.
pub fn print_timings(alloc: Global, line: &Line, timings: &[NamedTiming]) -> Result<Vec<u8>, Memory>
    requires may_stand { All (MayStand line.now) (map values_of timings.now) }
    requires one_file { AreOfOneFile (map values_of timings.now) }
    ensures text { IfOk result (λ v. v.items
        ≡ records_text (file_records line.now (map values_of timings.now))) }

    // It is read back as the same timings.
    ensures read_back { IfOk result (λ v. timings_of line.now v.items
        ≡ Ok (map values_of timings.now)) }

    // One of at most two timings, or of few steps, is no longer than a file that is read may be.
    ensures two { IfOk result (λ v. length timings.now ≤ 2 → length v.items ≤ 4194304) }
    ensures few_steps { IfOk result (λ v. steps_in (map values_of timings.now) ≤ 61000 →
        length v.items ≤ 4194304) }
{
    a_file_of_timings_is_short();
    timings_are_read_back();
    delays_are_parameters();
    let mut text = Vec::new(alloc);
    push_fields(alloc, &mut text, b"timing", b"parameter", b"value")?;
    for timing in timings {
        push_timing(alloc, &mut text, line, timing)?;
    }
    Ok(text)
}

fn push_timing(
    alloc: Global,
    text: &mut Vec<u8>,
    line: &Line,
    timing: &NamedTiming,
) -> Result<(), Memory>
    requires count { length timing.now.timing.values ≡ param_count line.now }
    requires steps { All (λ (s : Step ℕ). s.param < param_count line.now) timing.now.timing.steps }
    ensures { OnOk result (text.new.items
        ≡ text.old.items ++ records_text (timing_records line.now (values_of timing.now))) }
{
    let name = timing.name.bytes();
    push_fields(alloc, text, name, b"", b"")?;
    push_numbers(alloc, text, line, name, timing.timing.values())?;
    push_steps(alloc, text, line, name, timing.timing.steps())
}

fn push_numbers(
    alloc: Global,
    text: &mut Vec<u8>,
    line: &Line,
    name: &[u8],
    values: &[Tick],
) -> Result<(), Memory>
    requires { length values.now ≤ param_count line.now }
    ensures { OnOk result (text.new.items
        ≡ text.old.items ++ records_text (number_records line.now name.now 0 values.now)) }
{
    for i in 0..values.len() {
        push_number(alloc, text, line, name, i, values[i])?;
    }
    Ok(())
}

fn push_number(
    alloc: Global,
    text: &mut Vec<u8>,
    line: &Line,
    name: &[u8],
    i: usize,
    value: Tick,
) -> Result<(), Memory>
    requires { i < param_count line.now }
    ensures { OnOk result (text.new.items
        ≡ text.old.items ++ row_text default_writer (number_record line.now name.now i value)) }
{
    let param = line.params[i].name;
    let mut digits = Buffer::new();
    let value = digits.format(value.value()).as_bytes();
    push_fields(alloc, text, name, param.bytes(), value)
}

fn push_steps(
    alloc: Global,
    text: &mut Vec<u8>,
    line: &Line,
    name: &[u8],
    steps: &[Step<Tick>],
) -> Result<(), Memory>
    requires { All (λ (s : Step ℕ). s.param < param_count line.now) steps.now }
    ensures { OnOk result (text.new.items
        ≡ text.old.items ++ records_text (map (step_record line.now name.now) steps.now)) }
{
    for i in 0..steps.len() {
        push_step(alloc, text, line, name, steps[i])?;
    }
    Ok(())
}

fn push_step(
    alloc: Global,
    text: &mut Vec<u8>,
    line: &Line,
    name: &[u8],
    step: Step<Tick>,
) -> Result<(), Memory>
    requires { step.param < param_count line.now }
    ensures { OnOk result (text.new.items
        ≡ text.old.items ++ row_text default_writer (step_record line.now name.now step)) }
{
    let param = line.params[step.param as usize].name;
    let mut digits = Buffer::new();
    let from = digits.format(step.from).as_bytes();
    let field = text_of(alloc, &[param.bytes(), b"@", from])?;
    let mut digits = Buffer::new();
    let value = digits.format(step.value.value()).as_bytes();
    push_fields(alloc, text, name, field.as_slice(), value)
}

// A record of three fields.
fn push_fields<'a>(
    alloc: Global,
    text: &mut Vec<u8>,
    name: &'a [u8],
    parameter: &'a [u8],
    value: &'a [u8],
) -> Result<(), Memory>
    ensures { OnOk result (text.new.items
        ≡ text.old.items
        ++ row_text default_writer (name.now ∷ parameter.now ∷ value.now ∷ [])) }
{
    push_record(alloc, text, &[name, parameter, value])
}
