//! How bars look.

ghost use Rattle.std.specs.Prelude.{◌≡◌};
ghost use Rattle.draw_run.specs.layout.Legend.{bar_said, entry_below, entry_left};
ghost use Rattle.draw_run.specs.layout.Rows.{bar_of, class_of};

use crate::diagram::Trace;
use draw_shapes::Class;
use run_signal::Tern;

/// How a bar looks: what is seen, or a lost channel; a step of the logic, a key or a trip that is on,
/// or open.
#[derive(Clone, Copy, PartialEq, Eq)]
pub enum Bar {
    Seen,
    LogicOn,
    LogicOpen,
    KeyOn,
    KeyOpen,
    TripOn,
    TripOpen,
}

/// Every look, in the order of the legend.
pub const BARS: [Bar; 7] = [
    Bar::Seen,
    Bar::LogicOn,
    Bar::LogicOpen,
    Bar::KeyOn,
    Bar::KeyOpen,
    Bar::TripOn,
    Bar::TripOpen,
];

/// How the bar of a row with a value looks.
pub fn bar_of(trace: Trace, value: Tern) -> Bar
    ensures { result ≡ bar_of trace value }
{
    match (trace, value) {
        (Trace::Logic(_, _), Tern::Unknown) => Bar::LogicOpen,
        (Trace::Logic(_, _), _) => Bar::LogicOn,
        (Trace::Key(_), Tern::Unknown) => Bar::KeyOpen,
        (Trace::Key(_), _) => Bar::KeyOn,
        (Trace::Trip(_), Tern::Unknown) => Bar::TripOpen,
        (Trace::Trip(_), _) => Bar::TripOn,
        _ => Bar::Seen,
    }
}

impl Bar {
    /// Its look in the style sheet.
    pub fn class(self) -> Class
        ensures { result ≡ class_of self }
    {
        match self {
            Bar::Seen => Class::Seen,
            Bar::LogicOn => Class::LogicOn,
            Bar::LogicOpen => Class::LogicOpen,
            Bar::KeyOn => Class::KeyOn,
            Bar::KeyOpen => Class::KeyOpen,
            Bar::TripOn => Class::TripOn,
            Bar::TripOpen => Class::TripOpen,
        }
    }

    /// Where its entry of the legend stands, from the left.
    pub fn left(self) -> u32
        ensures { result ≡ entry_left self }
    {
        match self {
            Bar::Seen => 140,
            Bar::LogicOn | Bar::LogicOpen => 2100,
            Bar::KeyOn | Bar::KeyOpen => 4800,
            Bar::TripOn | Bar::TripOpen => 7300,
        }
    }

    /// And below the legend's top.
    pub fn below(self) -> u32
        ensures { result ≡ entry_below self }
    {
        match self {
            Bar::Seen | Bar::LogicOn | Bar::KeyOn | Bar::TripOn => 400,
            Bar::LogicOpen | Bar::KeyOpen | Bar::TripOpen => 580,
        }
    }

    /// What it says.
    pub fn said(self) -> &'static [u8]
        ensures { result.now ≡ bar_said self }
    {
        match self {
            Bar::Seen => b"seen, or channel lost",
            Bar::LogicOn => b"received, or a step of the scheme",
            Bar::LogicOpen => b"on or off, by the delays",
            Bar::KeyOn => b"key on",
            Bar::KeyOpen => b"key on or off, by the delays",
            Bar::TripOn => b"trip on",
            Bar::TripOpen => b"trip on or off, by the delays",
        }
    }
}
