//! The settings of the records that a word asks for.

ghost use Rattle.std.specs.Prelude.{◌≡◌, ◌≤◌, ◌<◌, ◌++◌, ◌∷◌, [], OnOk, IsTrue, List, map};
ghost use Rattle.std.specs.List.{All, list_all};
ghost use Rattle.model_line.specs.Parameters.{is_delay as is_delay_of, param_count};
ghost use Rattle.call_choose.specs.Rows.{AreRows, Row, are_alike as are_alike_of, first_ends};
ghost use Rattle.call_choose.specs.Rows.{has_ends as has_ends_of, row_alone, rows_by};

use crate::named::Named;
use judge_choose::Setting;
use model_line::laws::declared_intervals_are_in_order;
use model_line::{Line, Memory, name_of_parameter};
use std::alloc::Global;

/// Settings, each with what it is told under.
#[derive(Drop)]
pub struct Settings {
    pub names: Vec<Named>,
    pub settings: Vec<Setting>,
}

/// Appends the settings of a word for which these parameters stand: one that moves them all, where they
/// are declared with one interval; else one for each, under its own name.
pub fn push_rows(
    alloc: Global,
    all: &mut Settings,
    line: &Line,
    word: &[u8],
    params: Vec<u32>,
) -> Result<(), Memory>
    requires exist { All (λ param. param < param_count line.now) params.items }
    requires numbers { All (λ param. ¬ (IsTrue (is_delay_of line.now param))) params.items }
    ensures { OnOk result ((rows : List Row) → AreRows line.now rows all.old.names.items all.old.settings.items →
        AreRows line.now (rows ++ rows_by line.now word.now params.items) all.new.names.items
        all.new.settings.items) }
{
    if are_alike(line, &params) {
        return push_row(alloc, all, line, word, params);
    }
    push_each(alloc, all, line, &params)
}

fn are_alike(line: &Line, params: &[u32]) -> bool
    requires exist { All (λ param. param < param_count line.now) params.now }
    ensures { result ≡ are_alike_of line.now params.now }
{
    let (least, greatest) = ends_of(line, params);
    have_ends(line, params, least, greatest)
}

// The interval of the first of them.
fn ends_of(line: &Line, params: &[u32]) -> (u32, u32)
    requires exist { All (λ param. param < param_count line.now) params.now }
    ensures least { result.0 ≡ (first_ends line.now params.now).least }
    ensures greatest { result.1 ≡ (first_ends line.now params.now).greatest }
    ensures ordered { result.0 ≤ result.1 }
    ensures limit { result.1 ≤ 4000 }
{
    declared_intervals_are_in_order();
    match params {
        [] => (0, 0),
        [first, ..] => (line.least(*first), line.greatest(*first)),
    }
}

// Whether all have this interval.
fn have_ends(line: &Line, params: &[u32], least: u32, greatest: u32) -> bool
    requires exist { All (λ param. param < param_count line.now) params.now }
    ensures { result
        ≡ list_all (has_ends_of line.now (record { least = least; greatest = greatest })) params.now }
{
    match params {
        [] => true,
        [param, params @ ..] => {
            has_ends(line, *param, least, greatest) && have_ends(line, params, least, greatest)
        }
    }
}

fn has_ends(line: &Line, param: u32, least: u32, greatest: u32) -> bool
    requires { param < param_count line.now }
    ensures { result
        ≡ has_ends_of line.now (record { least = least; greatest = greatest }) param }
{
    line.least(param) == least && line.greatest(param) == greatest
}

// Appends the setting of each parameter by itself.
fn push_each(alloc: Global, all: &mut Settings, line: &Line, params: &[u32]) -> Result<(), Memory>
    requires exist { All (λ param. param < param_count line.now) params.now }
    requires numbers { All (λ param. ¬ (IsTrue (is_delay_of line.now param))) params.now }
    ensures { OnOk result ((rows : List Row) → AreRows line.now rows all.old.names.items all.old.settings.items →
        AreRows line.now (rows ++ map (row_alone line.now) params.now) all.new.names.items
        all.new.settings.items) }
{
    match params {
        [] => Ok(()),
        [param, params @ ..] => {
            push_alone(alloc, all, line, *param)?;
            push_each(alloc, all, line, params)
        }
    }
}

// Appends the setting of one parameter, under its own name.
fn push_alone(alloc: Global, all: &mut Settings, line: &Line, param: u32) -> Result<(), Memory>
    requires exists { param < param_count line.now }
    requires number { ¬ (IsTrue (is_delay_of line.now param)) }
    ensures { OnOk result ((rows : List Row) → AreRows line.now rows all.old.names.items all.old.settings.items →
        AreRows line.now (rows ++ row_alone line.now param ∷ []) all.new.names.items
        all.new.settings.items) }
{
    let mut params = Vec::new(alloc);
    params.push(param)?;
    push_row(alloc, all, line, name_of_parameter(line, param), params)
}

// Appends the setting that moves these parameters, under this name.
fn push_row(
    alloc: Global,
    all: &mut Settings,
    line: &Line,
    name: &[u8],
    params: Vec<u32>,
) -> Result<(), Memory>
    requires exist { All (λ param. param < param_count line.now) params.items }
    requires numbers { All (λ param. ¬ (IsTrue (is_delay_of line.now param))) params.items }
    requires alike { IsTrue (are_alike_of line.now params.items) }
    ensures { OnOk result ((rows : List Row) → AreRows line.now rows all.old.names.items all.old.settings.items →
        AreRows line.now (rows ++ record { name = name.now; params = params.items } ∷ []) all.new.names.items
        all.new.settings.items) }
{
    let (least, greatest) = ends_of(line, &params);
    let name = Vec::from_slice(alloc, name)?;
    all.names.push(Named {
        name,
        least,
        greatest,
    })?;
    all.settings.push(Setting {
        params,
        declared: least,
        last: 4000 - (greatest - least),
    })?;
    Ok(())
}
