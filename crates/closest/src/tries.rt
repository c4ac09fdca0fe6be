// Tolerances tried: whether some kept list of at most m samples that obeys the gap limit is within one.
ghost use Rattle.std.specs.Prelude.{◌≡◌, ◌≤◌, length};
ghost use Rattle.lists.specs.Overwrite.{Wrote};
ghost use Rattle.trace.specs.Trace.{Trace};
ghost use Rattle.trace.specs.Link.{Bounded, criterion};
ghost use Rattle.closest.specs.Closest.{Task, Reached, Tried, obeying_list, fewest_samples};

use proposed::list_error;
use ratio::Ratio;
use trace::Criterion;
use trace::gaps::links_end;

// Fixed memory: least takes traces of at most 256 samples, so a list has no more.
const NO_LIST: [u16; 256] = [0; 256];

// Tries the tolerance x by the minimum's list at it: the list's error if it has at most m samples.
pub fn trial(ticks: &[u32], values: &[i16], gap: u32, m: usize, x: Ratio) -> Option<Ratio>
    requires { Task ticks.now values.now gap m × Bounded (criterion x) }
    ensures { Tried ticks.now values.now gap m x result }
{
    let mut list = NO_LIST;
    let c = Criterion {
        up: x,
        down: x,
        gap,
    };
    let kept = shortest::minimum(ticks, values, c, &mut list);
    if m < kept {
        return None;
    }
    Some(list_error(ticks, values, &list[..kept]))
}

// Writes the shortest list that obeys the gap limit over the front of `out`, and returns its kept number.
fn obeying(ticks: &[u32], values: &[i16], gap: u32, out: &mut [u16]) -> usize
    requires { Trace ticks.now values.now × (length ticks.now ≤ length out.old) }
    ensures { Wrote (obeying_list ticks.now gap) out.old result out.new }
{
    let last = ticks.len() - 1;
    out[0] = 0;
    let mut count = 1;
    let mut i = 0;
    while i < last {
        i = links_end(ticks, values, gap, i);
        out[count] = i as u16;
        count += 1;
    }
    count
}

// How many samples the shortest list has that obeys the gap limit.
pub fn fewest(ticks: &[u32], values: &[i16], gap: u32) -> usize
    requires { Trace ticks.now values.now × (length ticks.now ≤ 256) }
    ensures { result ≡ fewest_samples ticks.now gap }
{
    let mut list = NO_LIST;
    obeying(ticks, values, gap, &mut list)
}

// The error of the shortest list that obeys the gap limit.
pub fn obeying_error(ticks: &[u32], values: &[i16], gap: u32, m: usize) -> Ratio
    requires { Task ticks.now values.now gap m }
    ensures { Reached ticks.now values.now gap m result }
{
    let mut list = NO_LIST;
    let kept = obeying(ticks, values, gap, &mut list);
    list_error(ticks, values, &list[..kept])
}
