// Walk at one tolerance, a turn a sample: the new sample is taken in, or the sample before is kept and the open link starts from it. Samples
// by value are in samples, what narrows a cone in bounds.
#![tactic(auto)]

ghost use Rattle.std.specs.Prelude.{◌≡◌, ℕ, ◌+◌, ◌<◌, length, set};
ghost use Rattle.trace.specs.Link.{Bounded};
ghost use Rattle.trace.specs.Cone.{ConeFits};
ghost use Rattle.turns.specs.Sample.{Ahead};
ghost use Rattle.turns.specs.Held.{goes_on, Goes, stepped, held_in, Inside};
ghost use Rattle.turns.specs.Turn.{started, narrowed, restarted, Turning, Became};

use crate::bounds::{lower_high, raise_low};
use crate::samples::aim_from;
use trace::cones::{admits, cone_of};
use trace::{Cone, Criterion, Edge};

// A sample by value: its tick, and its value as an unsigned level.
#[derive(Clone, Copy)]
pub struct Sample {
    pub tick: u64,
    pub level: u64,
}

// The step from one sample to the next: `at` is the number of the sample before, and `cut` tells that links of more than one step to the new
// sample do not obey the gap limit.
#[derive(Clone, Copy)]
pub struct Step {
    pub before: Sample,
    pub here: Sample,
    pub at: usize,
    pub cut: bool,
}

// Walk between two samples: its criterion, the start of the open link by its tick and level, the cone of the links from there, and the entry
// of the output that is written next.
#[derive(Clone, Copy)]
pub struct Walk {
    pub criterion: Criterion,
    pub tick: u64,
    pub level: u64,
    pub cone: Cone,
    pub place: usize,
}

pub mod bounds;
pub mod samples;

const NONE: Edge = Edge {
    rise: 0,
    run: 0,
    climb: 0,
};

impl Walk {
    // Walk before the second sample: no link is open.
    pub fn start(criterion: Criterion, place: usize) -> Walk
        ensures { result ≡ started criterion place }
    {
        Walk {
            criterion,
            tick: 0,
            level: 0,
            cone: Cone {
                low: NONE,
                high: NONE,
            },
            place,
        }
    }

    // Whether the open link goes on to the new sample: it is not cut, and passes every sample taken in.
    fn goes_on(&self, step: Step) -> bool
        requires { Bounded self.now.criterion × Goes step.cut step.here self.now.tick self.now.level self.now.cone }
        ensures { result ≡ goes_on self.now.criterion step.cut step.here self.now.tick self.now.level self.now.cone }
    {
        if step.cut {
            return false;
        }
        admits(
            self.cone,
            aim_from(self.tick, self.level, step.here, self.criterion),
        )
    }

    // Takes the new sample in.
    fn narrow(&mut self, here: Sample)
        requires { Bounded self.old.criterion × Ahead self.old.tick self.old.level here × ConeFits self.old.cone }
        ensures { self.new ≡ narrowed here self.old }
    {
        let c = self.criterion;
        let to = aim_from(self.tick, self.level, here, c);
        raise_low(&mut self.cone.low, to.up, c.up.p);
        lower_high(&mut self.cone.high, to.down, c.down.p);
    }

    // Starts the open link from the sample before, with the new sample taken in.
    fn restart(&mut self, before: Sample, here: Sample)
        requires { Bounded self.old.criterion × Ahead before.tick before.level here }
        ensures { self.new ≡ restarted before here self.old }
    {
        let c = self.criterion;
        self.tick = before.tick;
        self.level = before.level;
        self.cone = cone_of(aim_from(before.tick, before.level, here, c), c);
    }

    // Keeps sample `at`.
    fn keep(&mut self, at: usize, out: &mut [u16])
        requires { (self.old.place < length out.old) × (at < 65536) }
        ensures kept { out.new ≡ set out.old self.old.place at }
        ensures next { self.new ≡ record self.old { place = self.old.place + 1 } }
    {
        out[self.place] = at as u16;
        self.place += 1;
    }

    // Walk's turn at a step, which writes into the part of the output that its place lies in.
    pub fn turn(&mut self, step: Step, out: &mut [u16])
        requires { Turning step self.old out.old }
        ensures { (n a : ℕ) → Inside n a self.old.place → Became n a (stepped self.old.criterion step.cut step.before step.here step.at (held_in n a self.old out.old)) self.old out.old self.new out.new }
    {
        if self.goes_on(step) {
            self.narrow(step.here);
            return;
        }
        self.restart(step.before, step.here);
        self.keep(step.at, out);
    }
}
