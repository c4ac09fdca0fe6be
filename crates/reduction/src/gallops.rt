// Gallop: from each kept sample the next one is searched, by doubling and bisection.
ghost use Rattle.std.specs.Prelude.{◌≤◌, length};
ghost use Rattle.trace.specs.Trace.{Trace};
ghost use Rattle.trace.specs.Link.{Bounded};
ghost use Rattle.reduction.specs.Galloping.{Gallops};

use crate::Galloped;
use probing::search;
use trace::Criterion;
use trace::gaps::links_end;

// Writes gallop's list into out; how many samples it keeps, and its probe total.
// The caller lends out, since the library has no heap.
pub fn gallop(ticks: &[u32], values: &[i16], c: Criterion, out: &mut [u16]) -> Galloped
    requires { Trace ticks.now values.now × Bounded c × (length ticks.now ≤ length out.old) }
    ensures { Gallops ticks.now values.now c out.old result out.new }
{
    let last = ticks.len() - 1;
    out[0] = 0;
    let mut kept = 1;
    let mut probes = 0;
    let mut i = 0;
    while i < last {
        let limit = links_end(ticks, values, c.gap, i);
        while i < limit {
            let s = search(ticks, values, c, i, limit);
            i += s.low;
            probes += s.probes;
            out[kept] = i as u16;
            kept += 1;
        }
    }
    Galloped { kept, probes }
}
