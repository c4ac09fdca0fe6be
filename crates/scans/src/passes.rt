// The pass: each sample is read once, and taken in at every tolerance before the next is read.
ghost use Rattle.std.specs.Prelude.{◌≡◌, ℕ, ◌≤◌, length};
ghost use Rattle.scans.specs.Scan.{criterion_at, walk_at, Begun, Sampling, Insides, next_at, AllBecame, Closing, Closed, Given, Scanned};

use crate::Kept;
use ratio::Ratio;
use tolerance::Parts;
use trace::Criterion;
use turns::samples::{far_apart, sample_at};
use turns::{Step, Walk};

const NONE: Criterion = Criterion {
    up: Ratio { p: 0, q: 0 },
    down: Ratio { p: 0, q: 0 },
    gap: 0,
};

// Starts walk at each tolerance, before the second sample: it writes into a part of the output that is as long as the trace. The walks are lent,
// since walks that are returned take their room on the stack twice.
fn begin(walks: &mut [Walk; 16], parts: &[Parts], gap: u32, n: usize)
    requires { (length parts.now ≤ 16) × (n ≤ 4096) }
    ensures { Begun parts.now gap n walks.new }
{
    for (a, x) in parts.iter().enumerate() {
        let c = Criterion {
            up: x.up,
            down: x.down,
            gap,
        };
        walks[a] = Walk::start(c, a * n);
    }
}

// Takes the next sample in at every tolerance.
fn take_in(walks: &mut [Walk], step: Step, out: &mut [u16])
    requires { Sampling step walks.old out.old }
    ensures { (n : ℕ) → Insides n walks.old → AllBecame n (next_at n step walks.old out.old) walks.old out.old walks.new out.new }
{
    for walk in walks.iter_mut() {
        walk.turn(step, out);
    }
}

// Closes each part, n entries long, with the last sample: how many samples each keeps.
fn close(walks: &[Walk], n: usize, out: &mut [u16]) -> Kept
    requires { Closing n walks.now out.old }
    ensures { Closed n walks.now out.old result.counts out.new }
{
    let last = n - 1;
    let mut counts = [0usize; 16];
    for (a, walk) in walks.iter().enumerate() {
        out[walk.place] = last as u16;
        counts[a] = walk.place - a * n + 1;
    }
    Kept { counts }
}

// Writes walk's list at each tolerance into its part of out, and returns how many samples each keeps. A link of more than one step to the next
// sample crosses a hole exactly if one lies before that sample or before the sample before, as it crosses no other: to that sample it was valid.
pub fn scan(ticks: &[u32], values: &[i16], parts: &[Parts], gap: u32, out: &mut [u16]) -> Kept
    requires { Given ticks.now values.now parts.now gap out.old }
    ensures { Scanned ticks.now values.now parts.now gap out.old result.counts out.new }
{
    let n = ticks.len();
    let mut all = [Walk::start(NONE, 0); 16];
    begin(&mut all, parts, gap, n);
    let walks = &mut all[..parts.len()];
    let mut before = sample_at(ticks, values, 0);
    let mut hole = true;
    for at in 0..n - 1 {
        let here = sample_at(ticks, values, at + 1);
        let far = far_apart(before, here, gap);
        let step = Step {
            before,
            here,
            at,
            cut: hole | far,
        };
        take_in(walks, step, out);
        before = here;
        hole = far;
    }
    close(walks, n, out)
}
