//! A run of 64 views.

ghost use Rattle.std.specs.Prelude.{◌<◌, length};

use crate::channel::Channel64;
use crate::counter::Counter64;
use crate::levels::{Level64, levels_of};
use crate::lists::{at, push};
use crate::marks::Marks;
use crate::outlook::Outlook64;
use crate::pair::Pair64;
use crate::rails::Timers64;
use crate::scene::Scene;
use crate::turns::Turn;
use crate::views::Views64;
use model_line::{Channel, Memory};
use net_gates::{Gate, GateId};
use std::alloc::Global;

/// A run up to a tick: each gate's pair, and what its timers and channels hold. It looks at the gates
/// behind a change alone, and goes from one tick at which something may change to the next.
#[derive(Drop)]
pub struct Run64 {
    /// The lanes that are views.
    lanes: u64,
    gates: Vec<Gate64>,
    timers: Vec<TimerGate>,
    channels: Vec<Channel64>,
    /// The levels of gates that follow from what is assumed.
    levels: Vec<Level64>,
    /// How many of the script's turns were taken.
    turned: usize,
    /// How many of the gates that the trip rests on are not known.
    unknown: Counter64,
    /// The lanes in which what is assumed is excluded.
    excluded: u64,
    /// The ticks at which something may change.
    marks: Marks,
}

/// A gate in 64 lanes.
#[derive(Clone, Copy)]
struct Gate64 {
    pair: Pair64,
    /// Whether it is still to be looked at in this tick.
    stirred: bool,
    /// Its place among the timers, if it is one.
    slot: usize,
}

impl Gate64 {
    // On in no lane, and at rest.
    const OFF: Gate64 = Gate64 {
        pair: Pair64::OFF,
        stirred: false,
        slot: 0,
    };
}

/// A gate that is a timer.
#[derive(Drop)]
struct TimerGate {
    gate: u32,
    timers: Timers64,
}

/// Looks at 64 views of an obligation.
pub fn look_ahead(alloc: Global, scene: &Scene, views: &Views64) -> Result<Outlook64, Memory> {
    let mut outlook = Outlook64::bare(alloc);
    look_through(alloc, scene, views, &mut outlook)?;
    Ok(outlook)
}

fn look_through(
    alloc: Global,
    scene: &Scene,
    views: &Views64,
    outlook: &mut Outlook64,
) -> Result<(), Memory> {
    let mut run = Run64::bare(alloc, views.lanes());
    run_through(alloc, scene, views, &mut run, outlook)
}

// Takes a run through its ticks, and notes what it has at each.
fn run_through(
    alloc: Global,
    scene: &Scene,
    views: &Views64,
    run: &mut Run64,
    outlook: &mut Outlook64,
) -> Result<(), Memory> {
    outlook.begin(alloc, scene.net.key_gates().len())?;
    run.begin(alloc, scene, views)?;
    let horizon = scene.line.horizon;
    let mut t = 0;
    'stretches: while t < horizon {
        run.tick(scene, t);
        let next = run.marks.after(t, horizon);
        outlook.note(scene, run, t, next - t)?;
        t = next;
    }
    outlook.exclude(run.excluded);
    Ok(())
}

impl Run64 {
    // A run of no gates.
    fn bare(alloc: Global, lanes: u64) -> Run64 {
        Run64 {
            lanes,
            gates: Vec::new(alloc),
            timers: Vec::new(alloc),
            channels: Vec::new(alloc),
            levels: Vec::new(alloc),
            turned: 0,
            unknown: Counter64::new(),
            excluded: 0,
            marks: Marks::NONE,
        }
    }

    // Takes what there is before the first tick.
    fn begin(&mut self, alloc: Global, scene: &Scene, views: &Views64) -> Result<(), Memory> {
        self.levels = levels_of(alloc, scene, views)?;
        self.begin_marks(scene);
        for i in 0..scene.net.len() {
            self.add_gate(scene, views, i)?;
        }
        for window in views.windows() {
            push(&mut self.channels, Channel64::new(alloc, window)?)?;
        }
        Ok(())
    }

    // Marks where the script turns, and where a level that is assumed begins and ends.
    fn begin_marks(&mut self, scene: &Scene) {
        for level in &self.levels {
            self.marks.put(level.from);
            self.marks.put(level.to);
        }
        for turn in &scene.turns {
            self.marks.put(turn.tick);
        }
    }

    // Adds a gate, off in all lanes, to be looked at in the first tick.
    fn add_gate(&mut self, scene: &Scene, views: &Views64, i: u32) -> Result<(), Memory>
        requires { i < length scene.now.net.now.gates }
    {
        let gate = Gate64 {
            pair: Pair64::OFF,
            stirred: true,
            slot: self.timers.len(),
        };
        push(&mut self.gates, gate)?;
        if let Gate::Timer(_, pickup, dropout) = *scene.net.gate(GateId(i)) {
            let timers = Timers64::new(&views.rails(pickup, dropout));
            return push(&mut self.timers, TimerGate { gate: i, timers });
        }
        Ok(())
    }

    fn gate(&self, i: u32) -> Gate64 {
        at(&self.gates, i as usize, Gate64::OFF)
    }

    /// The pair of a gate at the tick that was taken last.
    pub fn pair(&self, gate: GateId) -> Pair64 {
        self.gate(gate.0).pair
    }

    /// The lanes that are views.
    pub fn lanes(&self) -> u64 {
        self.lanes
    }

    /// How many of the gates that the trip rests on are not known.
    pub fn unknown(&self) -> &Counter64 {
        &self.unknown
    }

    // Takes a tick, each gate after those that it reads.
    fn tick(&mut self, scene: &Scene, t: u32)
        requires { t < 4000 }
    {
        self.turn(scene, t);
        self.arrive(scene, t);
        self.stir_due(t);
        self.stir_levels(t);
        for i in 0..scene.net.len() {
            if self.calm(i) {
                self.renew(scene, i, t);
            }
        }
        self.send(scene, t);
    }

    // Marks a gate to be looked at.
    fn stir(&mut self, gate: u32) {
        if let Some(one) = self.gates.get_mut(gate as usize) {
            one.stirred = true;
        }
    }

    // Marks gates to be looked at.
    fn stir_all(&mut self, gates: &[u32]) {
        for gate in gates {
            self.stir(*gate);
        }
    }

    // Whether a gate is to be looked at. It no longer is.
    fn calm(&mut self, gate: u32) -> bool {
        match self.gates.get_mut(gate as usize) {
            Some(one) => {
                let was = one.stirred;
                one.stirred = false;
                was
            }
            None => false,
        }
    }

    // Takes the turns of what the script shows.
    fn turn(&mut self, scene: &Scene, t: u32) {
        let turns: &[Turn] = &scene.turns;
        for place in self.turned..turns.len() {
            let turn = turns[place];
            if turn.tick > t {
                return;
            }
            self.turned = place + 1;
            if turn.gate < scene.net.len() {
                self.put(scene, turn.gate, Pair64::known(turn.on));
            }
        }
    }

    // Takes what arrives over each channel.
    fn arrive(&mut self, scene: &Scene, t: u32)
        requires { t < 4000 }
    {
        for channel in 0..scene.line.channels.len() {
            if self.arrives(channel, t) {
                self.stir_all(scene.net.hearers(channel as u32));
            }
        }
    }

    // Takes what arrives over a channel, and tells whether it is something else in some lane.
    fn arrives(&mut self, channel: usize, t: u32) -> bool
        requires { t < 4000 }
    {
        match self.channels.get_mut(channel) {
            Some(one) => one.arrive(t, self.lanes, &mut self.marks),
            None => false,
        }
    }

    // Marks the timers that are due.
    fn stir_due(&mut self, t: u32) {
        for slot in 0..self.timers.len() {
            if let Some(gate) = self.due_at(slot, t) {
                self.stir(gate);
            }
        }
    }

    // The gate of a timer that is due.
    fn due_at(&self, slot: usize, t: u32) -> Option<u32> {
        match self.timers.get(slot) {
            Some(one) if one.timers.is_due(t) => Some(one.gate),
            _ => None,
        }
    }

    // Marks the gates whose level that is assumed begins or ends.
    fn stir_levels(&mut self, t: u32) {
        for place in 0..self.levels.len() {
            if let Some(gate) = self.level_turned(place, t) {
                self.stir(gate.0);
            }
        }
    }

    // The gate of a level that begins or ends at a tick.
    fn level_turned(&self, place: usize, t: u32) -> Option<GateId> {
        match self.levels.get(place) {
            Some(level) if level.from == t || level.to == t => Some(level.gate),
            _ => None,
        }
    }

    // Looks at a gate.
    fn renew(&mut self, scene: &Scene, i: u32, t: u32)
        requires tick { t < 4000 }
        requires gate { i < length scene.now.net.now.gates }
    {
        let own = self.own_pair(scene, i, t);
        let pair = self.assumed(GateId(i), own, t);
        self.put(scene, i, pair);
    }

    // The pair of a gate by its own rule.
    fn own_pair(&mut self, scene: &Scene, i: u32, t: u32) -> Pair64
        requires tick { t < 4000 }
        requires gate { i < length scene.now.net.now.gates }
    {
        let own = self.gate(i);
        match *scene.net.gate(GateId(i)) {
            Gate::Const(value) => Pair64::known(value),
            Gate::Seen(_) | Gate::Loss(_) => own.pair,
            Gate::Raw(channel) => self.arrived(channel),
            Gate::Not(input) => self.pair(input).not(),
            Gate::And(left, right) => self.pair(left).and(self.pair(right)),
            Gate::Or(left, right) => self.pair(left).or(self.pair(right)),
            Gate::Timer(input, _, _) => self.feed(own.slot, self.pair(input), t),
            Gate::Seal(set, hold) => own.pair.and(self.pair(hold)).or(self.pair(set)),
        }
    }

    // What arrived over a channel.
    fn arrived(&self, channel: u32) -> Pair64 {
        match self.channels.get(channel as usize) {
            Some(one) => one.arrived(),
            None => Pair64::OFF,
        }
    }

    // Puts a gate's pair. Where it is another one, those that read it are to be looked at.
    fn put(&mut self, scene: &Scene, i: u32, pair: Pair64)
        requires { i < length scene.now.net.now.gates }
    {
        let before = self.pair(GateId(i));
        if before.turns(pair).lanes() & self.lanes == 0 {
            return;
        }
        if let Some(own) = self.gates.get_mut(i as usize) {
            own.pair = pair;
        }
        if scene.reads.gate(GateId(i)).is_read() {
            self.unknown.add(pair.unknown() & !before.unknown());
            self.unknown.take(before.unknown() & !pair.unknown());
        }
        self.stir_all(scene.net.readers(GateId(i)));
    }

    // The pair of a gate at a tick, with the levels that are assumed. One that is on where its own
    // pair cannot be excludes what is assumed.
    fn assumed(&mut self, gate: GateId, own: Pair64, t: u32) -> Pair64 {
        let mut pair = own;
        for level in &self.levels {
            if level.is_at(gate, t) {
                pair = pair.with(level.on, level.lanes);
                if level.on {
                    self.excluded |= level.lanes & !own.may;
                }
            }
        }
        pair
    }

    fn feed(&mut self, slot: usize, input: Pair64, t: u32) -> Pair64
        requires { t < 4000 }
    {
        match self.timers.get_mut(slot) {
            Some(one) => one.timers.feed(t, input, self.lanes, &mut self.marks),
            None => Pair64::OFF,
        }
    }

    // Sends each key.
    fn send(&mut self, scene: &Scene, t: u32)
        requires { t < 4000 }
    {
        let channels: &[Channel] = &scene.line.channels;
        for channel in 0..channels.len() {
            let key = self.key_of(scene, channels[channel].from);
            if let Some(one) = self.channels.get_mut(channel) {
                one.send(t, key, self.lanes, &mut self.marks);
            }
        }
    }

    // What a terminal keys.
    fn key_of(&self, scene: &Scene, terminal: u32) -> Pair64 {
        match scene.net.key_gates().get(terminal as usize) {
            Some(gate) => self.pair(*gate),
            None => Pair64::OFF,
        }
    }
}
