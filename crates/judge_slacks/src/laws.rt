//! The laws of ends that are moved inward.

ghost use Rattle.judge_slacks.specs.SlackLaws.{AnObligationReadsOneEnd, WhatIsHeldIsHeldFurtherIn};

use crate::known::laws_below;

/// Where each trip of the line is one-railed, an obligation reads one end of each number, that of the
/// rail that decides it: so it is held with every interval that has this end in one with which it is.
pub fn an_obligation_reads_one_end()
    ensures { AnObligationReadsOneEnd }
{
    laws_below();
}

/// An obligation that is not held over the declared intervals, and is with an end moved inward, is
/// held with it moved further.
pub fn what_is_held_is_held_further_in()
    ensures { WhatIsHeldIsHeldFurtherIn }
{
    laws_below();
}
