// Gallop's search from one sample, by doubling and bisection. A probe goes on from the links of the last yes.
#![tactic(auto)]

ghost use Rattle.std.specs.Prelude.{◌≡◌, ◌+◌, ◌-◌, ◌*◌, ◌≤◌, ◌<◌, length};
ghost use Rattle.kept.specs.Gallop.{found, doubling, bisection, gallop_search};
ghost use Rattle.trace.specs.Trace.{Trace};
ghost use Rattle.trace.specs.Link.{Bounded, valid, links_end};
ghost use Rattle.probing.specs.Probing.{probe_at, Yes, Probes, Probed};

use kept::Search;
use outgoing::{Links, links_past, passes, reaches, taken, taken_to};
use trace::Criterion;

// A search from a sample: the offset of its last yes, the probes made, and the links with the samples up to that offset taken in.
#[derive(Clone, Copy)]
pub struct Probing {
    pub low: usize,
    pub probes: usize,
    pub links: Links,
}

impl Probing {
    // Probes offset d: whether the answer is yes. A probe past the last sample, or the last to which links obey the gap limit, answers no,
    // and counts.
    fn probe(&mut self, ticks: &[u32], values: &[i16], c: Criterion, d: usize) -> bool
        requires { Probes ticks.now values.now c self.old d }
        ensures { Probed ticks.now values.now c self.old.links.from.sample self.old d result self.new }
    {
        self.probes += 1;
        let from = self.links.from.sample;
        let end = from + d;
        if self.links.limit < end {
            return false;
        }
        if !passes(ticks, values, c, self.links, end) {
            return false;
        }
        let far = taken_to(ticks, values, c, self.links, from + self.low + 1, end);
        if !reaches(ticks, values, c, far, end) {
            return false;
        }
        self.low = d;
        self.links = taken(ticks, values, c, far, end);
        true
    }
}

// The last yes of probes from sample i at offsets 2, 4, 8, ..
fn double(ticks: &[u32], values: &[i16], c: Criterion, i: usize, limit: usize) -> Probing
    requires { Trace ticks.now values.now × Bounded c × (i + 1 < length ticks.now) × (limit ≡ links_end ticks.now c.gap i) }
    ensures yes { Yes ticks.now values.now c i result × (result.probes ≤ result.low) }
    ensures finds { found result.low result.probes ≡ doubling (probe_at ticks.now values.now c i) 1 0 (length ticks.now - 1) }
{
    let mut s = Probing {
        low: 1,
        probes: 0,
        links: links_past(ticks, values, c, i, limit),
    };
    let mut high = 2;
    while s.probe(ticks, values, c, high) {
        high += high;
    }
    s
}

// The last yes between the offset of s, a yes, and twice that offset, a no.
fn bisect(ticks: &[u32], values: &[i16], c: Criterion, mut s: Probing) -> Search
    requires { Trace ticks.now values.now × Bounded c × Yes ticks.now values.now c s.links.from.sample s × (s.probes ≤ s.low) }
    ensures { result ≡ bisection (probe_at ticks.now values.now c s.links.from.sample) s.low (s.low + s.low) s.probes s.low }
{
    let mut high = s.low + s.low;
    while s.low + 1 < high {
        let mid = (s.low + high) / 2;
        if !s.probe(ticks, values, c, mid) {
            high = mid;
        }
    }
    Search {
        low: s.low,
        probes: s.probes,
    }
}

// The search from sample i: the offset of its stop, and its probes.
pub fn search(ticks: &[u32], values: &[i16], c: Criterion, i: usize, limit: usize) -> Search
    requires { Trace ticks.now values.now × Bounded c × (i + 1 < length ticks.now) × (limit ≡ links_end ticks.now c.gap i) }
    ensures finds { result ≡ gallop_search (valid ticks.now values.now c) (length ticks.now - 1) i }
    ensures bounds { (0 < result.low) × (i + result.low ≤ limit) × (i + result.low < length ticks.now) × (result.probes ≤ 2 * result.low) }
{
    bisect(ticks, values, c, double(ticks, values, c, i, limit))
}
