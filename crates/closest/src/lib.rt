// The reduction least: the least error over the kept lists of at most m samples that obey the gap limit (search), and the minimum's list at
// that error.
// A tolerance is tried by the minimum's list at it (tries); tolerances are chosen among fractions of bounded denominator (choices).
#![tactic(auto)]

ghost use Rattle.std.specs.Prelude.{◌≡◌, ◌≤◌, length};
ghost use Rattle.lists.specs.Overwrite.{Wrote};
ghost use Rattle.trace.specs.Link.{Bounded, limited, criterion};
ghost use Rattle.shortest.specs.Shortest.{minimum_list};
ghost use Rattle.closest.specs.Closest.{Task, least_error};

use ratio::Ratio;
use trace::Criterion;

// Where a search stands: `low` is 0 or a tolerance at which no list fits, `high` the error of a list that fits.
#[derive(Clone, Copy)]
pub struct Interval {
    pub low: Ratio,
    pub high: Ratio,
}

// The kept number of the list found, and its error.
#[derive(Clone, Copy)]
pub struct Found {
    pub kept: usize,
    pub error: Ratio,
}

pub mod choices;
pub mod search;
pub mod tries;

// Writes the minimum's list at the least error over the front of `out`.
pub fn least(ticks: &[u32], values: &[i16], gap: u32, m: usize, out: &mut [u16]) -> Found
    requires { Task ticks.now values.now gap m × (length ticks.now ≤ length out.old) }
    ensures error { result.error ≡ least_error ticks.now values.now gap m }
    ensures allowed { Bounded (criterion result.error) }
    ensures list { Wrote (minimum_list ticks.now values.now (limited gap result.error)) out.old result.kept out.new }
{
    let error = search::least_error(ticks, values, gap, m);
    let c = Criterion {
        up: error,
        down: error,
        gap,
    };
    let kept = shortest::minimum(ticks, values, c, out);
    Found { kept, error }
}
