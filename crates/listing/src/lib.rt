// The two lists of channels that a comparison of pedestal runs makes: those that have moved, and those that are noisy.
#![tactic(auto)]

ghost use Rattle.std.specs.Prelude.{◌≤◌, ◌<◌, length};
ghost use Rattle.channels.specs.Channels.{part};
ghost use Rattle.verdicts.specs.Sums.{Judged};
ghost use Rattle.listing.specs.Listing.{Put, PartFits, Listable, BothListed};

use ratio::Ratio;
use verdicts::{Verdict, verdict_of};

// How many channels have moved, and how many are noisy.
#[derive(Clone, Copy)]
pub struct Counts {
    pub moved: usize,
    pub noisy: usize,
}

// Puts channel c behind the n entries of a list if it belongs there; returns how many there are then. There is no heap: a list is the
// caller's memory, and its count stands beside it.
fn put(list: &mut [u16], n: usize, c: usize, belongs: bool) -> usize
    requires { (n < length list.old) × (c ≤ 65535) }
    ensures { Put list.old n c belongs result list.new }
{
    if belongs {
        list[n] = c as u16;
        n + 1
    } else {
        n
    }
}

// What the comparison says of the channel of n samples from `at` on.
fn verdict_at(today: &[i16], earlier: &[i16], at: usize, n: usize, r: Ratio, k: u64) -> Verdict
    requires { PartFits today.now earlier.now at n r k }
    ensures { Judged (part at n today.now) (part at n earlier.now) r k result }
{
    let end = at + n;
    verdict_of(&today[at..end], &earlier[at..end], r, k)
}

// Lists the channels that have moved and those that are noisy, for runs of the same lengths.
pub fn list_channels(
    today: &[i16],
    earlier: &[i16],
    lengths: &[usize],
    r: Ratio,
    k: u64,
    moved: &mut [u16],
    noisy: &mut [u16],
) -> Counts
    requires { Listable today.now earlier.now lengths.now r k (length moved.old) (length noisy.old) }
    ensures { BothListed today.now earlier.now lengths.now r k moved.old noisy.old result moved.new noisy.new }
{
    let mut a = 0;
    let mut b = 0;
    let mut at = 0;
    for (c, &n) in lengths.iter().enumerate() {
        let v = verdict_at(today, earlier, at, n, r, k);
        a = put(moved, a, c, v.moved);
        b = put(noisy, b, c, v.noisy);
        at += n;
    }
    Counts { moved: a, noisy: b }
}
