// Walk: one pass over a checked trace, with one test a sample.
ghost use Rattle.std.specs.Prelude.{◌≤◌, length};
ghost use Rattle.lists.specs.Overwrite.{Wrote};
ghost use Rattle.trace.specs.Trace.{Trace};
ghost use Rattle.trace.specs.Link.{Bounded};
ghost use Rattle.reduction.specs.Walking.{walk_list};

use outgoing::stops::stop_after;
use trace::Criterion;
use trace::gaps::links_end;

// Writes walk's list into out, and returns how many samples it keeps.
// The caller lends out, since the library has no heap.
pub fn walk(ticks: &[u32], values: &[i16], c: Criterion, out: &mut [u16]) -> usize
    requires { Trace ticks.now values.now × Bounded c × (length ticks.now ≤ length out.old) }
    ensures { Wrote (walk_list ticks.now values.now c) out.old result out.new }
{
    let last = ticks.len() - 1;
    out[0] = 0;
    let mut kept = 1;
    let mut i = 0;
    while i < last {
        let limit = links_end(ticks, values, c.gap, i);
        while i < limit {
            i = stop_after(ticks, values, c, i, limit);
            out[kept] = i as u16;
            kept += 1;
        }
    }
    kept
}
