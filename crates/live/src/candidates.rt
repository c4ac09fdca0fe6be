// The samples that an addition may drop: what each costs, and the one that costs least.
ghost use Rattle.std.specs.Prelude.{◌≡◌, [], ◌∷◌, ◌++◌, ◌+◌, ◌-◌, ◌≤◌, ◌<◌, length, get_or, take};
ghost use Rattle.trace.specs.Link.{Bounded, criterion, link_error};
ghost use Rattle.views.specs.View.{cheapest, cost};
ghost use Rattle.live.specs.Candidates.{Candidates, with_last, deviation_at, better};

use measures::link_stray;
use ratio::Ratio;
use ratio::order::at_most;

// The entry that costs least so far, by its position less one, and what it costs, which need not be in lowest terms.
#[derive(Clone, Copy)]
pub struct Best {
    pub at: usize,
    pub error: Ratio,
}

impl Best {
    // This entry, or entry i + 1 if it costs less.
    #[tactic(auto, unfolding(crate::specs::Candidates::better))]
    fn or_cheaper(self, i: usize, error: Ratio) -> Best
        requires { Bounded (criterion self.error) × Bounded (criterion error) }
        ensures is { result ≡ better self i error }
        ensures allowed { Bounded (criterion result.error) }
    {
        if at_most(self.error, error) {
            self
        } else {
            Best { at: i, error }
        }
    }
}

// Entry i of the list with the new sample last.
#[tactic(auto, using(crate::proofs::CandidateLaws::entry_inside, crate::proofs::CandidateLaws::entry_new))]
fn entry(samples: &[u16], count: usize, new: usize, i: usize) -> usize
    requires { (count ≤ length samples.now) × (i ≤ count) }
    ensures { result ≡ get_or (take count samples.now ++ new ∷ []) i 0 }
{
    if i < count {
        usize::from(samples[i])
    } else {
        new
    }
}

// What it costs to drop entry i + 1.
#[tactic(auto, using(crate::proofs::CandidateLaws::cost_link, crate::proofs::CandidateLaws::cost_is))]
fn cost_at(ticks: &[u32], values: &[i16], samples: &[u16], count: usize, i: usize) -> Ratio
    requires { Candidates ticks.now values.now samples.now count × (i + 1 < count) }
    ensures is { result ≡ deviation_at ticks.now values.now (with_last ticks.now samples.now count) i }
    ensures allowed { Bounded (criterion result) }
{
    let last = ticks.len() - 1;
    let from = entry(samples, count, last, i);
    let to = entry(samples, count, last, i + 2);
    let s = link_stray(ticks, values, from, to);
    Ratio { p: s.p, q: s.q }
}

// The position, less one, of the inner entry that costs least, the earliest among equals.
pub fn cheapest_at(ticks: &[u32], values: &[i16], samples: &[u16], count: usize) -> usize
    requires { Candidates ticks.now values.now samples.now count × (2 ≤ count) }
    ensures is { result ≡ cheapest (cost (link_error ticks.now values.now) (with_last ticks.now samples.now count)) (count - 1) }
    ensures inner { result + 1 < count }
{
    let mut best = Best {
        at: 0,
        error: cost_at(ticks, values, samples, count, 0),
    };
    for i in 1..count - 1 {
        best = best.or_cheaper(i, cost_at(ticks, values, samples, count, i));
    }
    best.at
}
