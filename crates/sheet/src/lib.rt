// The report on a crate: a row for each channel, totals, and the lent list that receives the rows.
// `fill` alone has the list.
#![tactic(auto)]

ghost use Rattle.std.specs.Prelude.{◌≡◌, ◌+◌, ◌≤◌, ◌<◌, length};
ghost use Rattle.channels.specs.Channels.{Divided};
ghost use Rattle.trace.specs.Trace.{Trace};
ghost use Rattle.trace.specs.Link.{criterion, Bounded};
ghost use Rattle.sheet.specs.Report.{walked_row, declined_row, row_of, part_row, RowBounds, largest_error, totals_with, Rows, Fits, filled};

use ratio::Ratio;
use ratio::order::greater;
use refusal::Refusal;
use trace::Criterion;

// A channel's row: its samples, walk's kept number, its error p/q and the sample where it occurs first under the number 0; or a refusal's
// number beside zeros and 0/1.
#[repr(C)]
#[derive(Clone, Copy)]
pub struct Summary {
    pub samples: usize,
    pub kept: usize,
    pub p: u64,
    pub q: u64,
    pub sample: usize,
    pub number: u32,
}

// The samples and kept numbers of all channels, and the largest error p/q.
#[derive(Clone, Copy)]
pub struct Totals {
    pub samples: usize,
    pub kept: usize,
    pub p: u64,
    pub q: u64,
}

// A whole report by value: the first `count` of `rows`, of fixed memory since the library has no heap, and their totals.
#[derive(Clone, Copy)]
pub struct Sheet {
    pub rows: [Summary; 64],
    pub count: usize,
    pub totals: Totals,
}

// The row of a channel without samples.
const NO_SAMPLES: Summary = Summary {
    samples: 0,
    kept: 0,
    p: 0,
    q: 1,
    sample: 0,
    number: 0,
};

// The row of a trace: walk's list goes into an array of its own, of fixed memory, with an entry for each sample that a trace can have.
fn walked(ticks: &[u32], values: &[i16], c: Criterion) -> Summary
    requires { Trace ticks.now values.now × Bounded c }
    ensures is { result ≡ walked_row c ticks.now values.now }
    ensures bounds { RowBounds result }
{
    let mut list = [0u16; 4096];
    let kept = reduction::walks::walk(ticks, values, c, &mut list);
    let worst = proposed::list_stray(ticks, values, &list[..kept]);
    Summary {
        samples: ticks.len(),
        kept,
        p: worst.p,
        q: worst.q,
        sample: worst.sample,
        number: 0,
    }
}

#[tactic(auto, using(crate::proofs::ReportLaws::zero_bounded))]
fn declined(x: Refusal) -> Summary
    ensures is { result ≡ declined_row x }
    ensures bounds { RowBounds result }
{
    Summary {
        number: x.number(),
        ..NO_SAMPLES
    }
}

// The row of a channel: what it is depends on these ticks and values and on the criterion alone.
#[tactic(auto, unfolding(crate::specs::Report::row_of))]
fn channel(ticks: &[u32], values: &[i16], c: Criterion) -> Summary
    requires { Bounded c }
    ensures is { result ≡ row_of c ticks.now values.now }
    ensures bounds { RowBounds result }
{
    match trace::limits::check(ticks, values, 4096) {
        Ok(()) => walked(ticks, values, c),
        Err(x) => declined(x),
    }
}

// The row of the n samples from `at` on.
#[tactic(auto, using(crate::proofs::ReportLaws::part_is))]
fn part_row(ticks: &[u32], values: &[i16], c: Criterion, at: usize, n: usize) -> Summary
    requires { Bounded c × (at + n ≤ length ticks.now) × (at + n ≤ length values.now) }
    ensures is { result ≡ part_row c ticks.now values.now at n }
    ensures bounds { RowBounds result }
{
    let end = at + n;
    channel(&ticks[at..end], &values[at..end], c)
}

impl Totals {
    // The totals with one row more.
    fn with(self, r: Summary) -> Totals
        requires { (self.samples ≤ 262144) × (self.kept ≤ 262144) × Bounded (criterion (largest_error self)) × RowBounds r }
        ensures { result ≡ totals_with self r }
    {
        let error = Ratio {
            p: self.p,
            q: self.q,
        };
        let worst = greater(error, Ratio { p: r.p, q: r.q });
        Totals {
            samples: self.samples + r.samples,
            kept: self.kept + r.kept,
            p: worst.p,
            q: worst.q,
        }
    }
}

// The report on checked channels.
pub fn survey(ticks: &[u32], values: &[i16], lengths: &[usize], c: Criterion) -> Sheet
    requires { Bounded c × Divided ticks.now values.now lengths.now }
    ensures { Rows c ticks.now values.now lengths.now result }
{
    let mut rows = [NO_SAMPLES; 64];
    let mut totals = Totals {
        samples: 0,
        kept: 0,
        p: 0,
        q: 1,
    };
    let mut at = 0;
    for (i, &n) in lengths.iter().enumerate() {
        let row = part_row(ticks, values, c, at, n);
        rows[i] = row;
        totals = totals.with(row);
        at += n;
    }
    Sheet {
        rows,
        count: lengths.len(),
        totals,
    }
}

// The sheet's rows go to the front of the lent list.
pub fn fill(out: &mut [Summary], sheet: &Sheet)
    requires { Fits sheet.now (length out.old) }
    ensures { out.new ≡ filled sheet.now out.old }
{
    let n = sheet.count;
    out[..n].copy_from_slice(&sheet.rows[..n]);
}
