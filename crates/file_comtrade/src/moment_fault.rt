//! Why a line says no instant.

ghost use Rattle.std.specs.Prelude.{◌≡◌};
ghost use Rattle.file_comtrade.specs.Config.{moment_fault, other_order};
ghost use Rattle.file_comtrade.specs.Views.{texts};

use crate::calendar::day_of;
use crate::config::DateOrder;
use crate::fault::ConfigFault;

fn other_order(order: DateOrder) -> DateOrder
    ensures { result ≡ other_order order }
{
    match order {
        DateOrder::DayFirst => DateOrder::MonthFirst,
        DateOrder::MonthFirst => DateOrder::DayFirst,
    }
}

/// Why a line of this number, read with its dates in this order, says no instant.
pub fn moment_fault(order: DateOrder, n: usize, line: &[&[u8]]) -> ConfigFault
    ensures { result ≡ moment_fault order n (texts line.now) }
{
    match line {
        [date, _] => {
            if day_of(order, date).is_some() {
                ConfigFault::Time(n)
            } else if day_of(other_order(order), date).is_some() {
                ConfigFault::OtherOrder {
                    line: n,
                    order: other_order(order),
                }
            } else {
                ConfigFault::Date(n)
            }
        }
        _ => ConfigFault::Moment(n),
    }
}
