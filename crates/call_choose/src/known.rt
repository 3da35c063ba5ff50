//! Which name of a setting stands for no parameter.

ghost use Rattle.std.specs.Prelude.{◌≡◌, ◌≤◌, IfOk, IfSome, length, nat_lt};
ghost use Rattle.file_study.specs.times.Names.{params_of as params_for};
ghost use Rattle.call_choose.specs.Asked.{unknown_in};

use crate::names::{count, name_in_list};
use file_study::times::params_of;
use model_line::{Line, Memory};
use std::alloc::Global;

/// The first name of a list, counted from 0, that stands for no parameter.
pub fn unknown(alloc: Global, line: &Line, names: &[u8]) -> Result<Option<usize>, Memory>
    ensures is { IfOk result (λ found. found ≡ unknown_in line.now names.now) }
    ensures early { IfOk result (λ found. IfSome found (λ k. k ≤ length names.now)) }
{
    let mut found: Option<usize> = None;
    for k in 0..count(names) {
        let known = is_known(alloc, line, name_in_list(names, k))?;
        found = found.or((!known).then_some(k));
    }
    Ok(found)
}

// Whether a name stands for some parameter.
fn is_known(alloc: Global, line: &Line, name: &[u8]) -> Result<bool, Memory>
    ensures { IfOk result (λ known. known ≡ nat_lt 0 (length (params_for line.now name.now))) }
{
    let params = params_of(alloc, line, name)?;
    Ok(0 < params.len())
}
