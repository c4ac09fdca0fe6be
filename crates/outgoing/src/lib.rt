// The links from one sample of a trace: each is tested, and each sample taken in, in constant time. Walk's stop from that sample is in stops.
#![tactic(auto)]

ghost use Rattle.std.specs.Prelude.{◌≡◌, false, ◌+◌, ◌≤◌, ◌<◌, length};
ghost use Rattle.trace.specs.Trace.{Trace};
ghost use Rattle.trace.specs.Link.{Bounded, valid, links_end};
ghost use Rattle.outgoing.specs.Outgoing.{TakenIn, Next, Beyond};

use trace::cones::{admits, cone_of, extended};
use trace::edges::{aim_at, start_at};
use trace::{Cone, Criterion, Start};

// The links from one sample: the sample, the cone of what the samples taken in leave open, and the last sample to which links obey the
// gap limit.
#[derive(Clone, Copy)]
pub struct Links {
    pub from: Start,
    pub cone: Cone,
    pub limit: usize,
}

pub mod stops;

// The links from sample i, with the next sample taken in.
pub fn links_past(ticks: &[u32], values: &[i16], c: Criterion, i: usize, limit: usize) -> Links
    requires { Trace ticks.now values.now × Bounded c × (i + 1 < length ticks.now) × (limit ≡ links_end ticks.now c.gap i) }
    ensures { TakenIn ticks.now values.now c i (i + 1 + 1) result }
{
    let from = start_at(ticks, values, i);
    let to = aim_at(ticks, values, from, i + 1, c);
    Links {
        from,
        cone: cone_of(to, c),
        limit,
    }
}

// Whether the link to sample j is valid.
pub fn reaches(ticks: &[u32], values: &[i16], c: Criterion, links: Links, j: usize) -> bool
    requires { Next ticks.now values.now c links j }
    ensures { result ≡ valid ticks.now values.now c links.from.sample j }
{
    admits(links.cone, aim_at(ticks, values, links.from, j, c))
}

// Whether the link to sample e passes the samples taken in. Where it does not, it is invalid. The test is that of `reaches`, which knows
// that all samples before have been taken in, and so answers whether the link is valid.
pub fn passes(ticks: &[u32], values: &[i16], c: Criterion, links: Links, e: usize) -> bool
    requires { Beyond ticks.now values.now c links e }
    ensures { result ≡ false → valid ticks.now values.now c links.from.sample e ≡ false }
{
    admits(links.cone, aim_at(ticks, values, links.from, e, c))
}

// The links with sample j taken in too.
pub fn taken(ticks: &[u32], values: &[i16], c: Criterion, links: Links, j: usize) -> Links
    requires { Next ticks.now values.now c links j }
    ensures { TakenIn ticks.now values.now c links.from.sample (j + 1) result }
{
    let to = aim_at(ticks, values, links.from, j, c);
    let cone = extended(links.cone, to, c);
    Links { cone, ..links }
}

// The links with the samples from a on and before b taken in too.
pub fn taken_to(
    ticks: &[u32],
    values: &[i16],
    c: Criterion,
    mut links: Links,
    a: usize,
    b: usize,
) -> Links
    requires { Next ticks.now values.now c links a × (a ≤ b) × (b ≤ links.limit) × (b < length ticks.now) }
    ensures { TakenIn ticks.now values.now c links.from.sample b result }
{
    for k in a..b {
        links = taken(ticks, values, c, links, k);
    }
    links
}
