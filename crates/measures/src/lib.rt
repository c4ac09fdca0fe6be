// Where links stray: the greatest deviation of a link, its first sample and its side, found in one pass over the link's samples.
#![tactic(auto)]

ghost use Rattle.std.specs.Prelude.{◌≡◌, ◌≤◌, cond, leb};
ghost use Rattle.trace.specs.Link.{Linked, Bounded, criterion, deviation, side_of};
ghost use Rattle.trace.specs.Edge.{Slope, edge_side};
ghost use Rattle.measures.specs.Measure.{deviation_of, stray_of, measure_of, fault_of};

use links::all_within;
use ratio::Ratio;
use trace::edges::{distance, edge_to, no_steeper, start_at};
use trace::gaps::first_hole;
use trace::{Criterion, Edge, Side};

// A deviation p/q, which need not be in lowest terms, and its sample.
#[derive(Clone, Copy)]
pub struct Stray {
    pub p: u64,
    pub q: u64,
    pub sample: usize,
}

// A link's error in lowest terms, the first sample where it occurs, and its side.
#[derive(Clone, Copy)]
pub struct Measure {
    pub error: Ratio,
    pub sample: usize,
    pub side: Side,
}

impl Stray {
    // This deviation, or that of sample k if it is greater: d, over the same ticks.
    fn or_farther(self, d: u64, k: usize) -> Stray
        ensures { result ≡ cond (leb d self.p) self (record { p = d; q = self.q; sample = k }) }
    {
        if d <= self.p {
            self
        } else {
            Stray {
                p: d,
                sample: k,
                ..self
            }
        }
    }
}

// The side of the sample of the edge e beside the link of the edge `to`.
fn edge_side(e: Edge, to: Edge) -> Side
    requires { Slope e × Slope to }
    ensures { result ≡ edge_side e to }
{
    if !no_steeper(e, to) {
        Side::Above
    } else if !no_steeper(to, e) {
        Side::Below
    } else {
        Side::On
    }
}

// The greatest deviation of the samples of the link i to j and the first that has it; 0 and sample i where none deviates.
pub fn link_stray(ticks: &[u32], values: &[i16], i: usize, j: usize) -> Stray
    requires { Linked ticks.now values.now i j }
    ensures is { result ≡ stray_of ticks.now values.now i j }
    ensures allowed { Bounded (criterion (deviation_of result)) }
{
    let from = start_at(ticks, values, i);
    let to = edge_to(ticks, values, from, j, 1);
    let mut s = Stray {
        p: 0,
        q: to.run,
        sample: i,
    };
    for k in i + 1..j {
        let e = edge_to(ticks, values, from, k, 1);
        s = s.or_farther(distance(e, to), k);
    }
    s
}

// The side of sample k beside the link i to j.
fn side_at(ticks: &[u32], values: &[i16], i: usize, j: usize, k: usize) -> Side
    requires { Linked ticks.now values.now i j × (i ≤ k) × (k ≤ j) }
    ensures { result ≡ side_of (deviation ticks.now values.now i j k) }
{
    let from = start_at(ticks, values, i);
    let to = edge_to(ticks, values, from, j, 1);
    edge_side(edge_to(ticks, values, from, k, 1), to)
}

// The measure of the link i to j.
pub fn link_measure(ticks: &[u32], values: &[i16], i: usize, j: usize) -> Measure
    requires { Linked ticks.now values.now i j }
    ensures is { result ≡ measure_of ticks.now values.now i j }
    ensures allowed { Bounded (criterion result.error) }
{
    let s = link_stray(ticks, values, i, j);
    Measure {
        error: ratio::reduce(s.p, s.q),
        sample: s.sample,
        side: side_at(ticks, values, i, j, s.sample),
    }
}

// What is said of the link i to j where it is invalid: its measure, or its hole if each sample is within the criterion.
pub fn link_fault(ticks: &[u32], values: &[i16], c: Criterion, i: usize, j: usize) -> Measure
    requires { Linked ticks.now values.now i j × Bounded c }
    ensures { result ≡ fault_of ticks.now values.now c i j }
{
    let m = link_measure(ticks, values, i, j);
    if all_within(ticks, values, c, i, j) {
        Measure {
            sample: first_hole(ticks, values, c.gap, i, j),
            side: Side::Gap,
            ..m
        }
    } else {
        m
    }
}
