//! The tables that are printed for a line.

ghost use Rattle.std.specs.Prelude.{◌≡◌, ◌<◌, ◌≤◌, ◌*◌, pos, IfOk, OnOk, map};
ghost use Rattle.toml.specs.{Data.table, Data.integer, View.view, View.table_view};
ghost use Rattle.model_line.specs.Parameters.{IsOwner};
ghost use Rattle.model_line.specs.declared.line.Owner.TheVariants as owner;
ghost use Rattle.file_line.specs.Canonical.{put_member, time_data, interval_of};
ghost use Rattle.file_line.specs.Canonical.{setting_interval, times_data};
ghost use Rattle.file_line.specs.Canonical.{put_times, put_groups};
ghost use Rattle.file_line.specs.Owners.{IsOwner-prop};

use model_line::{Bounds, Line, Memory, Owner, Setting};
use std::alloc::Global;
use toml::{Table, Value};

/// Puts a value under one more key.
pub fn put(alloc: Global, table: &mut Table, key: &str, value: Value) -> Result<(), Memory>
    ensures { OnOk result
        (table_view table.new ≡ put_member key.now (view value) (table_view table.old)) }
{
    let key = String::from_str(alloc, key)?;
    let _old = table.insert(key, value)?;
    Ok(())
}

/// The times of a terminal's or a channel's settings, printed in units of so many to a tick.
#[derive(Drop)]
pub struct OwnerTimes<'a> {
    pub alloc: Global,
    pub unit: u32,
    pub line: &'a Line,
    pub owner: Owner,
    pub ghost few: { unit ≤ 1000000 },
    pub ghost owned: { IsOwner line.now owner } by { IsOwner-prop line.now owner },
}

impl<'a> OwnerTimes<'a> {
    /// A time: an array of its two ends, in units.
    pub fn time(&self, setting: Setting) -> Result<Value, Memory>
        ensures { IfOk result (λ v. view v
            ≡ time_data self.now.unit (setting_interval self.now.line.now self.now.owner setting)) }
    {
        let place = self.line.param_of(self.owner, setting).unwrap_or(0);
        let interval = interval(self.line, place);
        let least = in_units(interval.least, self.unit);
        let greatest = in_units(interval.greatest, self.unit);
        Ok(Value::Array(Vec::from_array(self.alloc, [least, greatest])?))
    }

    /// The table of the times of some settings.
    #[tactic(auto, unfolding(crate::specs::Canonical::times_data))]
    fn times(&self, settings: &[Setting]) -> Result<Value, Memory>
        ensures { IfOk result (λ v. view v
            ≡ times_data self.now.unit self.now.line.now self.now.owner settings.now) }
    {
        let mut table = Table::new(self.alloc);
        for setting in settings {
            put(self.alloc, &mut table, setting.key(), self.time(*setting)?)?;
        }
        Ok(Value::Table(table))
    }

    /// Puts the table of these settings; no settings have none.
    pub fn put_times(&self, settings: &[Setting], table: &mut Table) -> Result<(), Memory>
        ensures { OnOk result
            (table_view table.new
            ≡ put_times self.now.unit self.now.line.now self.now.owner settings.now
            (table_view table.old)) }
    {
        match settings.first() {
            Some(first) => put(self.alloc, table, first.table(), self.times(settings)?),
            None => Ok(()),
        }
    }

    /// Puts those of these groups.
    pub fn put_groups(&self, groups: &[&[Setting]], table: &mut Table) -> Result<(), Memory>
        ensures { OnOk result
            (table_view table.new
            ≡ put_groups self.now.unit self.now.line.now self.now.owner
            (map (λ group. group.now) groups.now) (table_view table.old)) }
    {
        for group in groups {
            self.put_times(group, table)?;
        }
        Ok(())
    }
}

// A number of ticks as a value in units.
fn in_units(ticks: u32, unit: u32) -> Value
    requires { unit ≤ 1000000 }
    ensures { view result ≡ integer (pos (ticks * unit)) }
{
    let units = u64::from(ticks) * u64::from(unit);
    Value::Integer(units as i64)
}

// The ends of a parameter's interval.
fn interval(line: &Line, place: u32) -> Bounds
    ensures { result ≡ interval_of line.now place }
{
    match line.params.get(place as usize) {
        Some(param) => Bounds {
            least: param.least,
            greatest: param.greatest,
        },
        None => Bounds {
            least: 0,
            greatest: 0,
        },
    }
}
