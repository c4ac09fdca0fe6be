// Walk's stop from one sample: one test a sample.
ghost use Rattle.std.specs.Prelude.{◌≡◌, ◌+◌, ◌-◌, ◌≤◌, ◌<◌, length};
ghost use Rattle.kept.specs.Walk.{walk_stop};
ghost use Rattle.trace.specs.Trace.{Trace};
ghost use Rattle.trace.specs.Link.{Bounded, valid, links_end};

use crate::{links_past, reaches, taken};
use trace::Criterion;

// The stop from sample i: the sample before the first invalid link, or the last sample. Links past `limit` do not obey the gap limit.
pub fn stop_after(ticks: &[u32], values: &[i16], c: Criterion, i: usize, limit: usize) -> usize
    requires { Trace ticks.now values.now × Bounded c × (i + 1 < length ticks.now) × (limit ≡ links_end ticks.now c.gap i) }
    ensures stop { result ≡ walk_stop (valid ticks.now values.now c) (length ticks.now - 1) i }
    ensures bounds { (i < result) × (result ≤ limit) × (result < length ticks.now) }
{
    let mut links = links_past(ticks, values, c, i, limit);
    for at in i + 1..limit {
        if !reaches(ticks, values, c, links, at + 1) {
            return at;
        }
        links = taken(ticks, values, c, links, at + 1);
    }
    limit
}
