// The reduction minimum: the shortest kept list of valid links, and of several the latest.
#![tactic(auto)]

ghost use Rattle.std.specs.Prelude.{◌≡◌, true, ◌+◌, ◌-◌, ◌≤◌, ◌<◌, length, get_or};
ghost use Rattle.lists.specs.Overwrite.{Wrote};
ghost use Rattle.kept.specs.Stops.{list_by};
ghost use Rattle.kept.specs.Minimum.{next_of};
ghost use Rattle.trace.specs.Trace.{Trace};
ghost use Rattle.trace.specs.Link.{Bounded, valid};
ghost use Rattle.trace.specs.Cone.{AcrossOf};
ghost use Rattle.shortest.specs.Shortest.{minimum_list, Planned, Onward, better_end, Scan};

use trace::cones::{across, admits, cone_of, extended, is_closed_by};
use trace::edges::{aim_at, start_at};
use trace::gaps::{end_of, run_from};
use trace::{Across, Criterion};

// The better of two ends of valid links: j if no more links lead on from it than from b; otherwise b.
fn better(links: &[u16], b: usize, j: usize) -> usize
    requires { (b < length links.now) × (j < length links.now) }
    ensures { result ≡ better_end (get_or links.now j 0) (get_or links.now b 0) true j b }
{
    if links[b] < links[j] { b } else { j }
}

// The latest next sample of a shortest list from sample i, by one scan over the ends j of its links with one cone. The scan stops where
// sample j closes the cone, which it does not where a later link is valid, and at `limit`, the last sample to which links obey the gap
// limit.
fn next_stop(
    ticks: &[u32],
    values: &[i16],
    c: Criterion,
    x: Across,
    links: &[u16],
    i: usize,
    limit: usize,
) -> usize
    requires { Scan ticks.now values.now c links.now i limit × AcrossOf c x }
    ensures { result ≡ next_of (valid ticks.now values.now c) (length ticks.now - 1) i }
{
    let from = start_at(ticks, values, i);
    let first = i + 1;
    let mut cone = cone_of(aim_at(ticks, values, from, first, c), c);
    let mut b = first;
    // A range that includes its end takes two instructions more for each end.
    for j in first + 1..limit + 1 {
        let to = aim_at(ticks, values, from, j, c);
        if admits(cone, to) {
            b = better(links, b, j);
        } else if is_closed_by(cone, to, x) {
            return b;
        }
        cone = extended(cone, to, c);
    }
    b
}

// Fills both tables from the last sample back: the fewest links from each sample on, and the latest next sample of such a list.
fn plan(ticks: &[u32], values: &[i16], c: Criterion, links: &mut [u16], next: &mut [u16])
    requires { Trace ticks.now values.now × Bounded c × (length ticks.now ≤ length links.old) × (length ticks.now ≤ length next.old) }
    ensures { Planned (valid ticks.now values.now c) (length ticks.now - 1) 0 next.new }
{
    let x = across(c);
    let last = ticks.len() - 1;
    let mut run = last;
    links[last] = 0;
    for i in (0..last).rev() {
        run = run_from(ticks, c.gap, i, run);
        let b = next_stop(ticks, values, c, x, links, i, end_of(i, run));
        links[i] = links[b] + 1;
        next[i] = b as u16;
    }
}

// Follows `next` from sample 0 to the last one, writes the stops over the front of `out`, and counts them.
fn follow(last: usize, next: &[u16], out: &mut [u16]) -> usize
    requires { Onward last next.now × (last < length out.old) }
    ensures { Wrote (list_by (λ k. get_or next.now k 0) last) out.old result out.new }
{
    out[0] = 0;
    let mut count = 1;
    let mut i = 0;
    while i < last {
        let j = next[i];
        out[count] = j;
        count += 1;
        i = usize::from(j);
    }
    count
}

// Writes the minimum's list over the front of `out`, and returns its kept number.
pub fn minimum(ticks: &[u32], values: &[i16], c: Criterion, out: &mut [u16]) -> usize
    requires { Trace ticks.now values.now × Bounded c × (length ticks.now ≤ length out.old) }
    ensures { Wrote (minimum_list ticks.now values.now c) out.old result out.new }
{
    // Fixed memory: an entry a sample, and a trace has at most 4,096.
    let mut links = [0u16; 4096];
    let mut next = [0u16; 4096];
    plan(ticks, values, c, &mut links, &mut next);
    follow(ticks.len() - 1, &next, out)
}
