//! What a conjunction lacks at a tick.

ghost use Rattle.std.specs.Prelude.{◌≡◌, ◌<◌, IfOk, length};
ghost use Rattle.std.specs.List.{All};
ghost use Rattle.judge_races.specs.Races.{columns_of, lack_of, ends_at as ends_in, begins_at as begins_of};
ghost use Rattle.judge_races.specs.Races.{is_lack as lacks_so, begins_in};

use model_line::Memory;
use std::alloc::Global;

/// What a conjunction lacks at a tick, by what its operands lack: the greatest; nothing where one of
/// them never was on.
pub fn most(columns: &[Vec<Option<u32>>], t: u32) -> Option<u32>
    requires { All (λ column. t < length column.items) columns.now }
    ensures { result ≡ lack_of (columns_of columns.now) t }
{
    match columns {
        [] => Some(0),
        [column, more @ ..] => match (column[t as usize], most(more, t)) {
            (Some(lack), Some(others)) => Some(lack.max(others)),
            _ => None,
        },
    }
}

/// Of each operand whether it lacks so much.
pub fn ends_at(
    alloc: Global,
    columns: &[Vec<Option<u32>>],
    t: u32,
    lack: u32,
) -> Result<Vec<bool>, Memory>
    requires { All (λ column. t < length column.items) columns.now }
    ensures { IfOk result (λ ends. ends.items ≡ ends_in (columns_of columns.now) t lack) }
{
    let mut ends = Vec::with_capacity(alloc, columns.len())?;
    for column in columns {
        ends.push(is_lack(column[t as usize], lack))?;
    }
    Ok(ends)
}

fn is_lack(one: Option<u32>, lack: u32) -> bool
    ensures { result ≡ lacks_so lack one }
{
    match one {
        Some(one) => one == lack,
        None => false,
    }
}

/// Of each operand whether it comes on at a tick.
pub fn begins_at(alloc: Global, columns: &[Vec<Option<u32>>], t: u32) -> Result<Vec<bool>, Memory>
    requires { All (λ column. t < length column.items) columns.now }
    ensures { IfOk result (λ begins. begins.items ≡ begins_of (columns_of columns.now) t) }
{
    let mut begins = Vec::with_capacity(alloc, columns.len())?;
    for column in columns {
        begins.push(comes_on(column, t))?;
    }
    Ok(begins)
}

fn comes_on(column: &[Option<u32>], t: u32) -> bool
    requires { t < length column.now }
    ensures { result ≡ begins_in t column.now }
{
    if t == 0 {
        is_lack(column[0], 0)
    } else {
        is_lack(column[t as usize], 0) && !is_lack(column[t as usize - 1], 0)
    }
}
