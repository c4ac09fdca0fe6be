// The tolerances that a search tries. Link errors have denominators up to 1,048,575, so between two neighbouring fractions of such
// denominators there is none.
ghost use Rattle.std.specs.Prelude.{◌≡◌, ◌+◌, ◌*◌, ◌<◌, leb};
ghost use Rattle.ratio.specs.Order.{Small};
ghost use Rattle.trace.specs.Link.{Bounded, criterion};
ghost use Rattle.closest.specs.Closest.{Candidate, Before};

use ratio::farey::neighbours;
use ratio::order::{at_most, common, cross};
use ratio::{Neighbours, Ratio};

// The left neighbour if it lies above `low`, otherwise the right one.
fn pick(low: Ratio, n: Neighbours) -> Ratio
    requires { Small low × Candidate n.left × Candidate n.right }
    ensures { Candidate result }
{
    let left = n.left;
    if at_most(left, low) {
        return n.right;
    }
    left
}

// A fraction next to the middle between `low` and `high`.
pub fn middle(low: Ratio, high: Ratio) -> Ratio
    requires { Bounded (criterion low) × Bounded (criterion high) × (0 < high.p) }
    ensures { Candidate result }
{
    let p = cross(low, high) + cross(high, low);
    let q = 2 * common(low, high);
    let n = neighbours(p, q, 1048575);
    pick(low, n)
}

// The greatest fraction below x.
pub fn before(x: Ratio) -> Ratio
    requires { Bounded (criterion x) × (0 < x.p) }
    ensures { Before x result }
{
    let n = neighbours(x.p, x.q, 1048575);
    n.left
}

// Whether `low` and `high` are at most 1/64 apart, or `high` is the lower.
pub fn narrow(low: Ratio, high: Ratio) -> bool
    requires { Bounded (criterion low) × Bounded (criterion high) }
    ensures { result ≡ leb (64 * (high.p * low.q)) (64 * (low.p * high.q) + low.q * high.q) }
{
    64 * cross(high, low) <= 64 * cross(low, high) + common(low, high)
}
