// The search for the least error: first by halving an interval of tolerances, then down to an error below which no list fits.
ghost use Rattle.std.specs.Prelude.{◌≡◌};
ghost use Rattle.trace.specs.Link.{Bounded, criterion};
ghost use Rattle.closest.specs.Closest.{Task, least_error, Reached, Narrowed};

use crate::Interval;
use crate::choices::{before, middle, narrow};
use crate::tries::{obeying_error, trial};
use ratio::Ratio;
use ratio::order::at_most;

// Tries a tolerance in the middle.
fn halve(ticks: &[u32], values: &[i16], gap: u32, m: usize, near: Interval) -> Interval
    requires { Task ticks.now values.now gap m × Bounded (criterion near.low) × Reached ticks.now values.now gap m near.high }
    ensures { Narrowed ticks.now values.now gap m near.high result }
{
    let low = near.low;
    let high = near.high;
    if high.p == 0 {
        return near;
    }
    let x = middle(low, high);
    if at_most(high, x) {
        return near;
    }
    match trial(ticks, values, gap, m, x) {
        Some(error) => Interval { low, high: error },
        None => Interval { low: x, high },
    }
}

// The error of some list of at most m samples that obeys the gap limit: 0 if there is one, otherwise that of the shortest such list.
fn first_error(ticks: &[u32], values: &[i16], gap: u32, m: usize) -> Ratio
    requires { Task ticks.now values.now gap m }
    ensures { Reached ticks.now values.now gap m result }
{
    match trial(ticks, values, gap, m, Ratio { p: 0, q: 1 }) {
        Some(error) => error,
        None => obeying_error(ticks, values, gap, m),
    }
}

// Halves the tolerances below `from` until they are narrow: 24 times are enough, as fractions tried lie within 1/1,048,575 of the middle.
fn approach(ticks: &[u32], values: &[i16], gap: u32, m: usize, from: Ratio) -> Interval
    requires { Task ticks.now values.now gap m × Reached ticks.now values.now gap m from }
    ensures { Narrowed ticks.now values.now gap m from result }
{
    let mut near = Interval {
        low: Ratio { p: 0, q: 1 },
        high: from,
    };
    for _ in 0..24 {
        if narrow(near.low, near.high) {
            return near;
        }
        near = halve(ticks, values, gap, m, near);
    }
    near
}

// Goes down from an error that is reached: no list fits below where it ends.
fn descend(ticks: &[u32], values: &[i16], gap: u32, m: usize, from: Interval) -> Ratio
    requires { Task ticks.now values.now gap m × Bounded (criterion from.low) × Reached ticks.now values.now gap m from.high }
    ensures is { result ≡ least_error ticks.now values.now gap m }
    ensures allowed { Bounded (criterion result) }
{
    let mut near = from;
    while 0 < near.high.p {
        match trial(ticks, values, gap, m, before(near.high)) {
            Some(error) => {
                let tried = Interval {
                    low: near.low,
                    high: error,
                };
                near = halve(ticks, values, gap, m, tried);
            }
            None => return near.high,
        }
    }
    near.high
}

// The least error over the kept lists of at most m samples that obey the gap limit.
pub fn least_error(ticks: &[u32], values: &[i16], gap: u32, m: usize) -> Ratio
    requires { Task ticks.now values.now gap m }
    ensures is { result ≡ least_error ticks.now values.now gap m }
    ensures allowed { Bounded (criterion result) }
{
    let near = approach(ticks, values, gap, m, first_error(ticks, values, gap, m));
    descend(ticks, values, gap, m, near)
}
