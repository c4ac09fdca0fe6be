// The sums of a trace's values, and the two tests. Values are signed up to the sums; all else is in unsigned 64 bits.
#![tactic(auto)]

ghost use Rattle.std.specs.Prelude.{◌≡◌, ◌*◌, ◌-◌, ◌≤◌, ltb, ◌+ℤ◌, ◌-ℤ◌, nat_abs, length};
ghost use Rattle.tolerance.specs.Meaning.{Held};
ghost use Rattle.verdicts.specs.Sums.{Summed, spread_in, Comparable, Judged};

mod sums;

use ratio::Ratio;
use sums::Sums;

// What the comparison says of a channel.
#[derive(Clone, Copy)]
pub struct Verdict {
    pub moved: bool,
    pub noisy: bool,
}

impl Sums {
    // The sums of a trace's values, in one pass. The lower and the upper halves of the squares are added apart, each in 32 bits, so that the
    // vector instructions take as many squares as values at a time.
    fn of(values: &[i16]) -> Sums
        requires { length values.now ≤ 4096 }
        ensures { Summed values.now result }
    {
        let mut sum = 0;
        let mut low = 0;
        let mut high = 0;
        for &v in values {
            let x = square(v);
            sum += i32::from(v);
            low += x % 65536;
            high += x / 65536;
        }
        Sums {
            count: values.len() as u64,
            sum,
            squares: u64::from(low) + 65536 * u64::from(high),
        }
    }

    // n Q - S squared, which is never negative.
    fn spread(self) -> u64
        ensures { (result ≡ spread_in self) × (result ≤ 18014398509481984) }
    {
        let s = u64::from(self.sum.unsigned_abs());
        self.count * self.squares - s * s
    }

    // Whether the mean of today's values differs from that of as many others by more than the ratio.
    fn moved(self, earlier: Sums, r: Ratio) -> bool
        requires { Held r }
        ensures { result ≡ ltb (r.p * self.count) (nat_abs (self.sum -ℤ earlier.sum) * r.q) }
    {
        r.p * self.count < u64::from(self.sum.abs_diff(earlier.sum)) * r.q
    }

    // Whether the spread of today's values is more than k squared times that of the others.
    fn noisy(self, earlier: Sums, k: u64) -> bool
        requires { k ≤ 16 }
        ensures { result ≡ ltb (k * k * spread_in earlier) (spread_in self) }
    {
        k * k * earlier.spread() < self.spread()
    }
}

// A value's square.
fn square(v: i16) -> u32
    ensures { (result ≡ nat_abs v * nat_abs v) × (result ≤ 1073741824) }
{
    let x = i32::from(v);
    (x * x) as u32
}

// What the comparison says of a channel, from its values today and in the run before.
pub fn verdict_of(today: &[i16], earlier: &[i16], r: Ratio, k: u64) -> Verdict
    requires { Comparable today.now earlier.now r k }
    ensures { Judged today.now earlier.now r k result }
{
    let a = Sums::of(today);
    let b = Sums::of(earlier);
    Verdict {
        moved: a.moved(b, r),
        noisy: a.noisy(b, k),
    }
}
