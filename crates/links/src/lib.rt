// Links of a trace: the test of one, in one pass over its samples. The definitions and their laws are those of `trace`.
#![tactic(auto)]

ghost use Rattle.std.specs.Prelude.{◌≡◌, ◌*◌, ◌≤◌, leb};
ghost use Rattle.trace.specs.Link.{Linked, Bounds, Bounded, within, all_within, valid};
ghost use Rattle.trace.specs.Edge.{Slope, distance_of, in_parts};

use ratio::Ratio;
use trace::edges::{distance, edge_to, no_steeper, start_at};
use trace::gaps::first_hole;
use trace::{Criterion, Edge};

// Whether a deviation without its sign, d over the link's ticks, is within a part.
fn in_part(d: u64, part: Ratio, run: u64) -> bool
    requires { (d ≤ 68718362625) × (run ≤ 1048575) × Bounds part }
    ensures { result ≡ leb (d * part.q) (part.p * run) }
{
    d * part.q <= part.p * run
}

// Whether the sample of the edge e is within the criterion of the link of the edge `to`.
fn in_parts(e: Edge, to: Edge, c: Criterion) -> bool
    requires { Slope e × Slope to × (distance_of e to ≤ 68718362625) × Bounded c }
    ensures { result ≡ in_parts e to c }
{
    let d = distance(e, to);
    if no_steeper(to, e) {
        in_part(d, c.up, to.run)
    } else {
        in_part(d, c.down, to.run)
    }
}

// Whether sample k is within the criterion of the link i to j.
fn within(ticks: &[u32], values: &[i16], c: Criterion, i: usize, j: usize, k: usize) -> bool
    requires { Linked ticks.now values.now i j × Bounded c × (i ≤ k) × (k ≤ j) }
    ensures { result ≡ within ticks.now values.now c i j k }
{
    let from = start_at(ticks, values, i);
    let to = edge_to(ticks, values, from, j, 1);
    let e = edge_to(ticks, values, from, k, 1);
    in_parts(e, to, c)
}

// Whether every sample of the link i to j is within the parts.
pub fn all_within(ticks: &[u32], values: &[i16], c: Criterion, i: usize, j: usize) -> bool
    requires { Linked ticks.now values.now i j × Bounded c }
    ensures { result ≡ all_within ticks.now values.now c i j }
{
    (i + 1..j).all(|k| within(ticks, values, c, i, j, k))
}

// Whether the link i to j is valid: it goes one step, or crosses no hole and has every sample within the parts.
pub fn link_valid(ticks: &[u32], values: &[i16], c: Criterion, i: usize, j: usize) -> bool
    requires { Linked ticks.now values.now i j × Bounded c }
    ensures { result ≡ valid ticks.now values.now c i j }
{
    j == i + 1
        || (first_hole(ticks, values, c.gap, i, j) >= j && all_within(ticks, values, c, i, j))
}
