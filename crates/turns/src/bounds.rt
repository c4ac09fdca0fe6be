// What a sample narrows a cone to. An edge is stored only where it changes. The low side and the high side mirror each other: the cone's own
// function for both (trace: cones) takes up to 23 % more instructions here, as it does not start from the margin.
ghost use Rattle.std.specs.Prelude.{◌≡◌, pos, ◌-ℤ◌, ◌*ℤ◌};
ghost use Rattle.trace.specs.Edge.{climb_of, Slope, Tilt, no_steeper, lowered, raised};
ghost use Rattle.trace.specs.Cone.{steeper_of, flatter_of};

use trace::Edge;
use trace::edges::{climb_over, lower_by, raise_by};

// How far edge a lies above edge b, over both runs.
fn margin(a: Edge, b: Edge) -> i64
    requires { Slope a × Slope b }
    ensures { result ≡ climb_of a.rise *ℤ pos b.run -ℤ climb_of b.rise *ℤ pos a.run }
{
    climb_over(a, b) - climb_over(b, a)
}

// Whether `low` is no steeper than the edge `to`, p lower. The margin is what tells that a link is valid, so it is at hand.
fn raises(low: Edge, to: Edge, p: u64) -> bool
    requires { Slope low × Tilt to p }
    ensures { result ≡ no_steeper low (lowered to p) }
{
    (p * low.run) as i64 <= margin(to, low)
}

// Whether the edge `to`, p higher, is no steeper than `high`.
fn lowers(high: Edge, to: Edge, p: u64) -> bool
    requires { Slope high × Tilt to p }
    ensures { result ≡ no_steeper (raised to p) high }
{
    (p * high.run) as i64 <= margin(high, to)
}

// Takes the sample of the edge `to` in on the low side.
pub fn raise_low(low: &mut Edge, to: Edge, p: u64)
    requires { Slope low.old × Tilt to p }
    ensures { low.new ≡ steeper_of low.old (lowered to p) }
{
    if raises(*low, to, p) {
        *low = lower_by(to, p);
    }
}

// Takes the sample of the edge `to` in on the high side.
pub fn lower_high(high: &mut Edge, to: Edge, p: u64)
    requires { Slope high.old × Tilt to p }
    ensures { high.new ≡ flatter_of high.old (raised to p) }
{
    if lowers(*high, to, p) {
        *high = raise_by(to, p);
    }
}
