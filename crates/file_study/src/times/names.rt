//! The names of an axis.

ghost use Rattle.std.specs.Prelude.{◌≡◌, ◌≤◌, ◌<◌, ◌+◌, ◌++◌, ◌∷◌, [], OnOk, IfOk, IfSome, codes, length};
ghost use Rattle.std.specs.Prelude.{count_by, if◌then◌else◌};
ghost use Rattle.std.specs.List.{All};
ghost use Rattle.std.specs.Str.{bytes_eq};
ghost use Rattle.model_line.specs.Parameters.{param_count};
ghost use Rattle.file_study.specs.times.Names.{is_comma, is_known};
ghost use Rattle.file_study.specs.times.Names.{is_meant as is_meant_of, name_count, name_of, next_start};
ghost use Rattle.file_study.specs.times.Names.{owner_in, params_of as params_for, setting_in};
ghost use Rattle.file_study.specs.times.Names.{stands_for as stands_for_of, start_of, unknown_in};

use base_text::lines::find_byte;
use model_line::{Line, Memory, name_of_parameter};
use std::alloc::Global;

/// The parameters, by their numbers, for which names that are parted by commas stand, in the line's
/// order. A name is a parameter's own, or has `*` in place of the terminal or the channel.
pub fn params_of(alloc: Global, line: &Line, names: &[u8]) -> Result<Vec<u32>, Memory>
    ensures are { IfOk result (λ params. params.items ≡ params_for line.now names.now) }
    ensures exist { IfOk result (λ params.
        All (λ param. param < param_count line.now) params.items) }
{
    let mut params = Vec::new(alloc);
    for i in 0..line.param_count() {
        push_if(&mut params, is_meant(line, names, i), i)?;
    }
    Ok(params)
}

// Appends the number where it is meant.
fn push_if(params: &mut Vec<u32>, meant: bool, i: u32) -> Result<(), Memory>
    ensures { OnOk result (params.new.items
        ≡ params.old.items ++ (if meant then i ∷ [] else [])) }
{
    if meant {
        params.push(i)?;
    }
    Ok(())
}

// Whether a name of the list stands for a parameter.
fn is_meant(line: &Line, names: &[u8], i: u32) -> bool
    ensures { result ≡ is_meant_of line.now names.now i }
{
    let param = name_of_parameter(line, i);
    let mut found = false;
    for k in 0..count(names) {
        found = stands_for(name(names, k), param) || found;
    }
    found
}

/// The first name of the list, counted from 0, that stands for no parameter.
pub fn unknown(line: &Line, names: &[u8]) -> Option<usize>
    ensures is { result ≡ unknown_in line.now names.now }
    ensures early { IfSome result (λ k. k ≤ length names.now) }
{
    let mut found = None;
    for k in 0..count(names) {
        found = found.or((!known(line, name(names, k))).then_some(k));
    }
    found
}

// Whether a name stands for some parameter.
fn known(line: &Line, name: &[u8]) -> bool
    ensures { result ≡ is_known line.now name.now }
{
    let mut found = false;
    for i in 0..line.param_count() {
        found = stands_for(name, name_of_parameter(line, i)) || found;
    }
    found
}

// Whether it is the parameter's own name, or has `*` in place of its owner.
fn stands_for(name: &[u8], param: &[u8]) -> bool
    ensures { result ≡ stands_for_of name.now param.now }
{
    name == param || (is_star(owner(name)) && setting(name) == setting(param))
}

fn is_star(owner: &[u8]) -> bool
    ensures { result ≡ bytes_eq owner.now (codes "*") }
{
    owner == b"*".as_slice()
}

fn owner(name: &[u8]) -> &[u8]
    ensures { result.now ≡ owner_in name.now }
{
    &name[..find_byte(name, b'.')]
}

fn setting(name: &[u8]) -> &[u8]
    ensures { result.now ≡ setting_in name.now }
{
    &name[find_byte(name, b'.')..]
}

// Name k of the list, counted from 0.
fn name(names: &[u8], k: usize) -> &[u8]
    ensures { result.now ≡ name_of names.now k }
{
    let rest = &names[start(names, k)..];
    &rest[..find_byte(rest, b',')]
}

// Where it begins.
fn start(names: &[u8], k: usize) -> usize
    ensures is { result ≡ start_of names.now k }
    ensures inside { result ≤ length names.now }
{
    let mut start = 0;
    for _ in 0..k {
        start = next(names, start);
    }
    start
}

// Behind the first comma from here on, or the end of the list.
fn next(names: &[u8], from: usize) -> usize
    requires { from ≤ length names.now }
    ensures is { result ≡ next_start names.now from }
    ensures inside { result ≤ length names.now }
{
    let comma = from + find_byte(&names[from..], b',');
    if comma < names.len() {
        comma + 1
    } else {
        names.len()
    }
}

// How many names there are.
fn count(names: &[u8]) -> usize
    ensures { result ≡ name_count names.now }
{
    commas(names) + 1
}

fn commas(names: &[u8]) -> usize
    ensures is { result ≡ count_by is_comma names.now }
    ensures few { result ≤ length names.now }
{
    names.iter().filter(|byte| **byte == b',').count()
}
