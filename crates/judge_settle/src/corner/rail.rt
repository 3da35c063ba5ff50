//! The rails of a pair, and the ends of an interval.

ghost use Rattle.std.specs.Prelude.{◌≡◌};
ghost use Rattle.run_signal.specs.Terns.{tern_rails};
ghost use Rattle.model_settle.specs.Sides.{turned as turned_rail, value_on};
ghost use Rattle.model_settle.specs.Sides.{pickup_end as end_of_pickup};
ghost use Rattle.model_settle.specs.Sides.{dropout_end as end_of_dropout};
ghost use Rattle.model_settle.specs.Worst.{deciding as deciding_rail, shows as is_looked_for};
ghost use Rattle.judge_settle.specs.corner.Named.{rail_named, end_named};

use model_line::Kind;
use run_signal::{Signal, Tern};

/// What must be, or what may be.
#[derive(Clone, Copy)]
pub enum Rail {
    Must,
    May,
}

/// An end of an interval.
#[derive(Clone, Copy)]
pub enum End {
    Least,
    Greatest,
}

/// The rail of the trip that decides an obligation: what must trip on an internal fault, and what
/// may on an external one.
pub fn deciding(kind: Kind) -> Rail
    ensures { rail_named result ≡ deciding_rail kind }
{
    match kind {
        Kind::Internal => Rail::Must,
        Kind::External => Rail::May,
    }
}

impl Rail {
    /// The rail that a denial reads.
    pub fn turned(self) -> Rail
        ensures { rail_named result ≡ turned_rail (rail_named self) }
    {
        match self {
            Rail::Must => Rail::May,
            Rail::May => Rail::Must,
        }
    }

    /// The end at which the rail takes a pickup.
    pub fn pickup_end(self) -> End
        ensures { end_named result ≡ end_of_pickup (rail_named self) }
    {
        match self {
            Rail::Must => End::Greatest,
            Rail::May => End::Least,
        }
    }

    /// The end at which the rail takes a dropout.
    pub fn dropout_end(self) -> End
        ensures { end_named result ≡ end_of_dropout (rail_named self) }
    {
        match self {
            Rail::Must => End::Least,
            Rail::May => End::Greatest,
        }
    }

    /// A value on the rail.
    pub fn reads(self, value: Tern) -> bool
        ensures { result ≡ value_on (rail_named self) (tern_rails value) }
    {
        match self {
            Rail::Must => value.must(0),
            Rail::May => value.may(0),
        }
    }

    /// Whether a delay is looked for with which this arrives: on the may rail something, on the must
    /// rail nothing.
    pub fn looks_for(self, arrives: bool) -> bool
        ensures { result ≡ is_looked_for (rail_named self) arrives }
    {
        match self {
            Rail::Must => !arrives,
            Rail::May => arrives,
        }
    }
}
