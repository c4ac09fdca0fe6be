// Holes in the ticks of a trace: neighbouring samples that lie further apart than a gap limit.
ghost use Rattle.std.specs.Prelude.{◌≡◌, suc, ◌+◌, ◌-◌, ◌≤◌, ◌<◌, max, length};
ghost use Rattle.lists.specs.First.{first};
ghost use Rattle.trace.specs.Trace.{Rising, Trace};
ghost use Rattle.trace.specs.Link.{hole, links_end};

use lists::{first_where, some_where};

// Whether sample k + 1 lies more than `gap` ticks after sample k.
#[tactic(auto, unfolding(crate::specs::Link::hole))]
pub fn hole_after(ticks: &[u32], gap: u32, k: usize) -> bool
    requires { Rising ticks.now × (k + 1 < length ticks.now) }
    ensures { result ≡ hole ticks.now gap k }
{
    gap < ticks[k + 1] - ticks[k]
}

// The first sample from a on and before b that a hole follows; b where there is none. It passes over 64 samples at a time.
// No two samples of a trace lie further apart than the largest gap limit.
#[tactic(auto, using(crate::proofs::Holes::widest_clear, lists::proofs::FirstLaws::first_none, lists::proofs::FirstLaws::first_skip))]
pub fn first_hole(ticks: &[u32], values: &[i16], gap: u32, a: usize, b: usize) -> usize
    requires { Trace ticks.now values.now × (a ≤ b) × (b < length ticks.now) }
    ensures { result ≡ first (hole ticks.now gap) a b }
{
    if 1_048_575 <= gap {
        return b;
    }
    let far = |k| hole_after(ticks, gap, k);
    let passes = (b - a) / 64;
    for i in 0..passes {
        let k = a + 64 * i;
        if some_where(k, k + 64, &far) {
            return first_where(k, b, &far);
        }
    }
    first_where(a + 64 * passes, b, &far)
}

// The last sample to which links from sample i obey the gap limit, where e is the first sample from i on that a hole follows, or the last.
pub fn end_of(i: usize, e: usize) -> usize
    requires { (i ≤ e) × (e < 4096) }
    ensures { result ≡ max (suc i) e }
{
    e.max(i + 1)
}

// The first sample from i on that a hole follows, or the last one; `run` is that from the next sample on.
#[tactic(auto, using(crate::proofs::Holes::run_hole, crate::proofs::Holes::run_back))]
pub fn run_from(ticks: &[u32], gap: u32, i: usize, run: usize) -> usize
    requires { Rising ticks.now × (i + 1 < length ticks.now) × (run ≡ first (hole ticks.now gap) (i + 1) (length ticks.now - 1)) }
    ensures { result ≡ first (hole ticks.now gap) i (length ticks.now - 1) }
{
    if hole_after(ticks, gap, i) { i } else { run }
}

// The last sample to which links from sample i obey the gap limit.
#[tactic(auto, using(crate::proofs::Holes::links_end_is))]
pub fn links_end(ticks: &[u32], values: &[i16], gap: u32, i: usize) -> usize
    requires { Trace ticks.now values.now × (i + 1 < length ticks.now) }
    ensures { result ≡ links_end ticks.now gap i }
{
    end_of(i, first_hole(ticks, values, gap, i, ticks.len() - 1))
}
