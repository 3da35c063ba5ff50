//! On which rails gates and times are read where a trip is.

use crate::lists::at;
use model_line::{Channel, Kind, Line, Memory};
use model_logic::Time;
use net_gates::{Gate, GateId, Net};
use std::alloc::Global;

/// The rails on which something is read.
#[derive(Clone, Copy)]
pub struct ReadOn {
    pub must: bool,
    pub may: bool,
}

impl ReadOn {
    /// On neither.
    pub const NEITHER: ReadOn = ReadOn {
        must: false,
        may: false,
    };

    /// Whether it is read on both rails.
    pub fn is_both(self) -> bool {
        self.must && self.may
    }

    /// Whether it is read at all.
    pub fn is_read(self) -> bool {
        self.must || self.may
    }

    // On the rails of either.
    fn or(self, other: ReadOn) -> ReadOn {
        ReadOn {
            must: self.must || other.must,
            may: self.may || other.may,
        }
    }

    // On the rails that a denial reads.
    fn turned(self) -> ReadOn {
        ReadOn {
            must: self.may,
            may: self.must,
        }
    }
}

// more than a line has
const PARAMS: usize = 64;

/// How a parameter is read. It counts as a pickup where a timer has it for one.
#[derive(Clone, Copy)]
struct ParamReads {
    on: ReadOn,
    is_pickup: bool,
}

impl ParamReads {
    // Not at all.
    const NONE: ParamReads = ParamReads {
        on: ReadOn::NEITHER,
        is_pickup: false,
    };
}

/// On which rails each gate and each parameter is read where the trip of a terminal is read on the
/// rail that decides: must for an internal fault, may for an external one.
#[derive(Drop)]
pub struct Reads {
    gates: Vec<ReadOn>,
    params: [ParamReads; PARAMS],
}

impl Reads {
    /// The walk from the trip, once more for each channel that may follow another.
    pub fn new(
        alloc: Global,
        line: &Line,
        net: &Net,
        kind: Kind,
        trip: Option<GateId>,
    ) -> Result<Reads, Memory> {
        let gates = vec![in alloc; ReadOn::NEITHER; net.len() as usize]?;
        let mut reads = Reads {
            gates,
            params: [ParamReads::NONE; PARAMS],
        };
        if let Some(trip) = trip {
            reads.read(trip, decided_on(kind));
        }
        for _hop in 0..8 {
            reads.walk(line, net);
        }
        Ok(reads)
    }

    // From each gate to what it reads, the last gate first.
    fn walk(&mut self, line: &Line, net: &Net) {
        for i in (0..net.len()).rev() {
            let on = self.gate(GateId(i));
            if on.is_read() {
                self.step(line, net, *net.gate(GateId(i)), on);
            }
        }
    }

    // From one gate, read on these rails, to what it reads.
    fn step(&mut self, line: &Line, net: &Net, gate: Gate, on: ReadOn) {
        match gate {
            Gate::Const(_) | Gate::Seen(_) | Gate::Loss(_) => {}
            Gate::Raw(channel) => self.step_channel(line, net, channel, on),
            Gate::Not(input) => self.read(input, on.turned()),
            Gate::And(left, right) | Gate::Or(left, right) | Gate::Seal(left, right) => {
                self.read(left, on);
                self.read(right, on);
            }
            Gate::Timer(input, pickup, dropout) => {
                self.read(input, on);
                self.read_time(pickup, on, true);
                self.read_time(dropout, on, false);
            }
        }
    }

    // Over a channel to its sender's key.
    fn step_channel(&mut self, line: &Line, net: &Net, channel: u32, on: ReadOn) {
        let channels: &[Channel] = &line.channels;
        if (channel as usize) < channels.len() {
            self.read_time(Time::Param(line.delay_of(channel)), on, false);
            let from = channels[channel as usize].from;
            if let Some(key) = net.key_gates().get(from as usize) {
                self.read(*key, on);
            }
        }
    }

    /// The rails of a gate.
    pub fn gate(&self, gate: GateId) -> ReadOn {
        at(&self.gates, gate.0 as usize, ReadOn::NEITHER)
    }

    /// The rails of a parameter.
    pub fn param(&self, param: u32) -> ReadOn {
        self.reads_of(param).on
    }

    /// Whether a parameter is a pickup.
    pub fn is_pickup(&self, param: u32) -> bool {
        self.reads_of(param).is_pickup
    }

    fn reads_of(&self, param: u32) -> ParamReads {
        at(&self.params, param as usize, ParamReads::NONE)
    }

    fn read(&mut self, gate: GateId, on: ReadOn) {
        if let Some(read) = self.gates.get_mut(gate.0 as usize) {
            *read = read.or(on);
        }
    }

    fn read_time(&mut self, time: Time, on: ReadOn, pickup: bool) {
        let Time::Param(param) = time else {
            return;
        };
        if let Some(reads) = self.params.get_mut(param as usize) {
            reads.on = reads.on.or(on);
            reads.is_pickup = reads.is_pickup || pickup;
        }
    }
}

// The rail on which a trip decides an obligation.
fn decided_on(kind: Kind) -> ReadOn {
    match kind {
        Kind::Internal => ReadOn {
            must: true,
            may: false,
        },
        Kind::External => ReadOn {
            must: false,
            may: true,
        },
    }
}
