// Judge's second question (document 02, "Lists from other labs"): whether a proposed list is greedy, each of its links valid and each stop but
// the last sample followed by an invalid link from the same start to the next sample. One pass over the trace: the cone of each link tests its
// end and the sample after it.
#![tactic(auto)]

ghost use Rattle.std.specs.Prelude.{◌≡◌, ◌+◌, ◌-◌, ◌≤◌, ◌<◌, length};
ghost use Rattle.kept.specs.Kept.{KeptList};
ghost use Rattle.trace.specs.Trace.{Trace};
ghost use Rattle.trace.specs.Link.{Linked, Bounded, valid, links_end};
ghost use Rattle.greedy.specs.Greedy.{Through, Tests, list_greedy, JudgeGreedyOutcome};

use limits::{Limits, prepare};
use links::all_within;
use outgoing::{Links, links_past, reaches, taken, taken_to};
use proposed::ends_at;
use refusal::Refusal;
use trace::Criterion;
use trace::gaps::links_end;

// What `judge_greedy` says of a list: it is greedy; or not, with the first position at fault, where the link is invalid, or where the link is
// valid and its stop is followed by a valid link.
#[derive(Clone, Copy)]
pub enum GreedyVerdict {
    Yes,
    Link(usize),
    Stop(usize),
}

// What the test of a link says: it is invalid; or it is valid, and the one from the same start to the sample after its end is invalid, or
// valid too.
#[derive(Clone, Copy)]
pub enum Tested {
    Invalid,
    Maximal,
    Further,
}

// Whether the link i to j is valid, where no longer one from i obeys the gap limit.
fn reaches_limit(
    ticks: &[u32],
    values: &[i16],
    c: Criterion,
    i: usize,
    j: usize,
    limit: usize,
) -> bool
    requires { Linked ticks.now values.now i j × Bounded c × (limit ≡ links_end ticks.now c.gap i) × (limit ≤ j) }
    ensures { result ≡ valid ticks.now values.now c i j }
{
    j <= limit && all_within(ticks, values, c, i, j)
}

// The links from sample i with the samples up to j taken in, where the link i to j is valid.
fn links_through(
    ticks: &[u32],
    values: &[i16],
    c: Criterion,
    i: usize,
    j: usize,
    limit: usize,
) -> Option<Links>
    requires { Linked ticks.now values.now i j × Bounded c × (limit ≡ links_end ticks.now c.gap i) × (j < limit) }
    ensures { Through ticks.now values.now c i j result }
{
    let next = links_past(ticks, values, c, i, limit);
    if j == i + 1 {
        return Some(next);
    }
    let links = taken_to(ticks, values, c, next, i + 2, j);
    if reaches(ticks, values, c, links, j) {
        Some(taken(ticks, values, c, links, j))
    } else {
        None
    }
}

// The test of the link i to j and of the one to the sample after j. Links past `limit` do not obey the gap limit.
fn test(ticks: &[u32], values: &[i16], c: Criterion, i: usize, j: usize, limit: usize) -> Tested
    requires { Linked ticks.now values.now i j × Bounded c × (limit ≡ links_end ticks.now c.gap i) }
    ensures { Tests ticks.now values.now c i j result }
{
    if limit <= j {
        return if reaches_limit(ticks, values, c, i, j, limit) {
            Tested::Maximal
        } else {
            Tested::Invalid
        };
    }
    match links_through(ticks, values, c, i, j, limit) {
        None => Tested::Invalid,
        Some(links) => {
            if reaches(ticks, values, c, links, j + 1) {
                Tested::Further
            } else {
                Tested::Maximal
            }
        }
    }
}

// The last sample to which links from sample i obey the gap limit; `limit` is that already if it lies beyond i.
fn limit_from(ticks: &[u32], values: &[i16], gap: u32, i: usize, limit: usize) -> usize
    requires { Trace ticks.now values.now × (i + 1 < length ticks.now) × (i < limit → limit ≡ links_end ticks.now gap i) }
    ensures { result ≡ links_end ticks.now gap i }
{
    if i < limit {
        limit
    } else {
        links_end(ticks, values, gap, i)
    }
}

// The verdict on a kept list.
fn verdict(ticks: &[u32], values: &[i16], list: &[u16], c: Criterion) -> GreedyVerdict
    requires { Trace ticks.now values.now × Bounded c × KeptList (length ticks.now - 1) list.now }
    ensures { result ≡ list_greedy ticks.now values.now list.now c }
{
    let mut limit = 0;
    for k in 0..list.len() - 1 {
        let link = ends_at(list, k);
        limit = limit_from(ticks, values, c.gap, link.from, limit);
        match test(ticks, values, c, link.from, link.to, limit) {
            Tested::Invalid => return GreedyVerdict::Link(k),
            Tested::Further => return GreedyVerdict::Stop(k),
            Tested::Maximal => {}
        }
    }
    GreedyVerdict::Yes
}

// Whether the list is greedy; if not, the first position at fault, and which fault.
#[tactic(auto, unfolding(crate::specs::Greedy::judge_greedy_of, judging::specs::Judge::judge_rows), using(crate::proofs::GreedyLaws::greedy_outcome))]
pub fn judge_greedy(
    ticks: &[u32],
    values: &[i16],
    list: &[u16],
    t: Limits,
) -> Result<GreedyVerdict, Refusal>
    ensures { JudgeGreedyOutcome ticks.now values.now list.now t result }
{
    let c = prepare(ticks, values, t)?;
    proposed::check(list, ticks.len())?;
    Ok(verdict(ticks, values, list, c))
}
