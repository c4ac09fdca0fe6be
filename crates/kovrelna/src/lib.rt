// The C interface: each export is a public call of `engine` or of a product above it, with the numbers and structs of `border` for its answers.
#![tactic(auto)]

ghost use Rattle.kovrelna.specs.Exports.{HoldExport, MeasureExport, JudgeExport, JudgeGreedyExport, WalkExport, ScanExport, GallopExport, MinimumExport, LeastExport, ViewBeginExport, ViewAddExport, SumExport, ExpandExport, ExpandWithExport, WriteExport, ReadExport, SameExport, ReportExport, PedestalsExport};
ghost use Rattle.pedestals.specs.Compare.{run_of};

use border::{
    Answer, Begun, Closest, Compared, Content, Galloped, Held, Judged, JudgedGreedy, Limits,
    Measured, Report, Scanned, Tolerance, Tolerances, Verdict,
};
use live::View;
use pedestals::Run;
use sheet::Summary;

// Writes a row for each channel into the first entries of `out`.
#[unsafe(no_mangle)]
pub extern "C" fn kovrelna_report(
    ticks: &[u32],
    values: &[i16],
    lengths: &[usize],
    t: Limits,
    out: &mut [Summary],
) -> Report
    ensures { ReportExport ticks.now values.now lengths.now t out.old result out.new }
{
    Report::from(engine::report::report(ticks, values, lengths, t.into(), out))
}

// The ratio in lowest terms that a tolerance means.
#[unsafe(no_mangle)]
pub extern "C" fn kovrelna_hold(t: Tolerance) -> Held
    ensures { HoldExport t result }
{
    Held::from(engine::hold::hold(t.into()))
}

// Where the link i to j strays.
#[unsafe(no_mangle)]
pub extern "C" fn kovrelna_measure(ticks: &[u32], values: &[i16], i: usize, j: usize) -> Measured
    ensures { MeasureExport ticks.now values.now i j result }
{
    Measured::from(engine::measure::measure(ticks, values, i, j))
}

// Whether each link of the list is valid.
#[unsafe(no_mangle)]
pub extern "C" fn kovrelna_judge(ticks: &[u32], values: &[i16], list: &[u16], t: Limits) -> Judged
    ensures { JudgeExport ticks.now values.now list.now t result }
{
    Judged::from(engine::judge::judge(ticks, values, list, t.into()))
}

// Whether the list is greedy.
#[unsafe(no_mangle)]
pub extern "C" fn kovrelna_judge_greedy(
    ticks: &[u32],
    values: &[i16],
    list: &[u16],
    t: Limits,
) -> JudgedGreedy
    ensures { JudgeGreedyExport ticks.now values.now list.now t result }
{
    JudgedGreedy::from(engine::judge_greedy::judge_greedy(ticks, values, list, t.into()))
}

// Writes walk's list into the first entries of `out`.
#[unsafe(no_mangle)]
pub extern "C" fn kovrelna_walk(ticks: &[u32], values: &[i16], t: Limits, out: &mut [u16]) -> Answer
    ensures { WalkExport ticks.now values.now t out.old result out.new }
{
    Answer::from(engine::walk::walk(ticks, values, t.into(), out))
}

// Writes walk's list at each tolerance into the first entries of its part of `out`.
#[unsafe(no_mangle)]
pub extern "C" fn kovrelna_scan(
    ticks: &[u32],
    values: &[i16],
    t: Tolerances,
    gap: u32,
    out: &mut [u16],
) -> Scanned
    ensures { ScanExport ticks.now values.now t gap out.old result out.new }
{
    Scanned::from(engine::scan::scan(ticks, values, t.into(), gap, out))
}

// Writes gallop's list into the first entries of `out`.
#[unsafe(no_mangle)]
pub extern "C" fn kovrelna_gallop(
    ticks: &[u32],
    values: &[i16],
    t: Limits,
    out: &mut [u16],
) -> Galloped
    ensures { GallopExport ticks.now values.now t out.old result out.new }
{
    Galloped::from(engine::gallop::gallop(ticks, values, t.into(), out))
}

// Writes the minimum's list into the first entries of `out`.
#[unsafe(no_mangle)]
pub extern "C" fn kovrelna_minimum(
    ticks: &[u32],
    values: &[i16],
    t: Limits,
    out: &mut [u16],
) -> Answer
    ensures { MinimumExport ticks.now values.now t out.old result out.new }
{
    Answer::from(engine::minimum::minimum(ticks, values, t.into(), out))
}

// Writes the list with the least error of at most `allowance` samples into the first entries of `out`.
#[unsafe(no_mangle)]
pub extern "C" fn kovrelna_least(
    ticks: &[u32],
    values: &[i16],
    gap: u32,
    allowance: u64,
    out: &mut [u16],
) -> Closest
    ensures { LeastExport ticks.now values.now gap allowance out.old result out.new }
{
    Closest::from(engine::least::least(ticks, values, gap, allowance as usize, out))
}

// A view of the first sample.
#[unsafe(no_mangle)]
pub extern "C" fn kovrelna_view_begin(k: u64) -> Begun
    ensures { ViewBeginExport k result }
{
    Begun::from(engine::view::begin(k))
}

// Adds the last sample to the view of those before it.
#[unsafe(no_mangle)]
pub extern "C" fn kovrelna_view_add(view: &mut View, ticks: &[u32], values: &[i16]) -> Answer
    ensures { ViewAddExport ticks.now values.now view.old result view.new }
{
    Answer::from(engine::view::add(view, ticks, values))
}

// Writes the sums of two traces into the first entries of `sums`, and the samples of either list into those of `joined`.
#[unsafe(no_mangle)]
pub extern "C" fn kovrelna_sum(
    ticks1: &[u32],
    values1: &[i16],
    ticks2: &[u32],
    values2: &[i16],
    list1: &[u16],
    list2: &[u16],
    sums: &mut [i16],
    joined: &mut [u16],
) -> Answer
    ensures { SumExport ticks1.now values1.now ticks2.now values2.now list1.now list2.now sums.old joined.old result sums.new joined.new }
{
    Answer::from(engine::sum::sum(ticks1, values1, ticks2, values2, list1, list2, sums, joined))
}

// Writes the value of each range code into the first entries of `out`.
#[unsafe(no_mangle)]
pub extern "C" fn kovrelna_expand(codes: &[u8], out: &mut [i16]) -> Answer
    ensures { ExpandExport codes.now out.old result out.new }
{
    Answer::from(engine::expand::expand(codes, out))
}

// The same with the values of the caller's table.
#[unsafe(no_mangle)]
pub extern "C" fn kovrelna_expand_with(codes: &[u8], table: &[i16], out: &mut [i16]) -> Answer
    ensures { ExpandWithExport codes.now table.now out.old result out.new }
{
    Answer::from(engine::expand_with::expand_with(codes, table, out))
}

// Writes the record of the list's samples and the tolerance into the buffer from a place on.
#[unsafe(no_mangle)]
pub extern "C" fn kovrelna_write(
    ticks: &[u32],
    values: &[i16],
    list: &[u16],
    t: Limits,
    buffer: &mut [u8],
    place: usize,
) -> Answer
    ensures { WriteExport ticks.now values.now list.now t buffer.old place result buffer.new }
{
    Answer::from(engine::write::write(ticks, values, list, t.into(), buffer, place))
}

// Writes the samples of a record into the first entries of both lists.
#[unsafe(no_mangle)]
pub extern "C" fn kovrelna_read(bytes: &[u8], ticks: &mut [u32], values: &mut [i16]) -> Content
    ensures { ReadExport bytes.now ticks.old values.old result ticks.new values.new }
{
    Content::from(engine::read::read(bytes, ticks, values))
}

// Whether the kept samples of two records agree.
#[unsafe(no_mangle)]
pub extern "C" fn kovrelna_same(first: &[u8], second: &[u8]) -> Verdict
    ensures { SameExport first.now second.now result }
{
    Verdict::from(engine::same::same(first, second))
}

// Lists the channels of two pedestal runs that have moved, and those that are noisy, in the first entries of the two lists.
#[unsafe(no_mangle)]
pub extern "C" fn kovrelna_pedestals(
    ticks1: &[u32],
    values1: &[i16],
    lengths1: &[usize],
    ticks2: &[u32],
    values2: &[i16],
    lengths2: &[usize],
    t: Tolerance,
    k: u64,
    moved: &mut [u16],
    noisy: &mut [u16],
) -> Compared
    ensures { PedestalsExport (run_of ticks1.now values1.now lengths1.now) (run_of ticks2.now values2.now lengths2.now) t k moved.old noisy.old result moved.new noisy.new }
{
    let today = Run {
        ticks: ticks1,
        values: values1,
        lengths: lengths1,
    };
    let earlier = Run {
        ticks: ticks2,
        values: values2,
        lengths: lengths2,
    };
    Compared::from(pedestals::compare(today, earlier, t.into(), k, moved, noisy))
}
