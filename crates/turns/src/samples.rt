// Samples by value, each read once, and the edges to them.
ghost use Rattle.std.specs.Prelude.{◌≡◌, ◌-◌, ◌≤◌, ◌<◌, ltb, length};
ghost use Rattle.trace.specs.Link.{Bounded};
ghost use Rattle.turns.specs.Sample.{SampleAt, edge_from, aim_from, Ahead};

use crate::Sample;
use trace::edges::{edge_of, level_at, scaled};
use trace::{Aim, Criterion, Edge};

const MIDDLE: u64 = 0x20_0000_0000;

// Sample k.
pub fn sample_at(ticks: &[u32], values: &[i16], k: usize) -> Sample
    requires { (k < length ticks.now) × (k < length values.now) }
    ensures { SampleAt ticks.now values.now k result }
{
    Sample {
        tick: u64::from(ticks[k]),
        level: level_at(values, k),
    }
}

// The edge to a sample from a start, given by its tick and level.
fn edge_from(tick: u64, level: u64, to: Sample, q: u64) -> Edge
    requires { (q ≤ 1048575) × Ahead tick level to }
    ensures { result ≡ edge_from q tick level to }
{
    let rise = scaled(q, to.level) + (MIDDLE - scaled(q, level));
    edge_of(rise, to.tick - tick)
}

// The edges to it, at both scales.
pub fn aim_from(tick: u64, level: u64, to: Sample, c: Criterion) -> Aim
    requires { Bounded c × Ahead tick level to }
    ensures { result ≡ aim_from c tick level to }
{
    let up = edge_from(tick, level, to, c.up.q);
    let down = edge_from(tick, level, to, c.down.q);
    Aim { up, down }
}

// Whether two neighbouring samples lie more than `gap` ticks apart.
pub fn far_apart(before: Sample, here: Sample, gap: u32) -> bool
    requires { before.tick ≤ here.tick }
    ensures { result ≡ ltb gap (here.tick - before.tick) }
{
    u64::from(gap) < here.tick - before.tick
}
