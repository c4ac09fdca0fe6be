// The checks of a comparison, in their order: 14, 11, 4; channel by channel 1, 2, 3 of either run and 13; 10.
ghost use Rattle.std.specs.Prelude.{◌≡◌, ◌+◌, ◌≤◌, length};
ghost use Rattle.checking.specs.Checks.{CrateOutcome};
ghost use Rattle.pedestals.specs.Compare.{lent, rooms_row};
ghost use Rattle.pedestals.specs.Checking.{HasPart, PartChecked, ChannelChecked, ChannelsChecked, CallChecked, DividedRuns, HeldOne, Readied};

use crate::{Cause, Run};
use ratio::Ratio;
use refusal::Refusal;
use tolerance::Tolerance;

impl Run<'_> {
    // Checks 1, 2 and 3 of channel c, the n samples from `at` on.
    fn check_part(self, at: usize, n: usize, c: usize) -> Result<(), Cause>
        requires { HasPart (lent self) at n }
        ensures { PartChecked c (lent self.entry) at n result }
    {
        let end = at + n;
        let own = engine::checks::check_trace(&self.ticks[at..end], &self.values[at..end]);
        own.map_err(|x| Cause::Trace(c, x))
    }

    // Check 11 of one run.
    fn check_crate(self) -> Result<(), Refusal>
        ensures { CrateOutcome self.entry.ticks.now self.entry.values.now self.entry.lengths.now result }
    {
        engine::checks::check_crate(self.ticks, self.values, self.lengths)
    }
}

// The checks of channel c in both runs, from `at` on, where it has n samples today and m in the run before.
fn check_channel(
    today: Run,
    earlier: Run,
    at: usize,
    n: usize,
    m: usize,
    c: usize,
) -> Result<(), Cause>
    requires { HasPart (lent today) at n × HasPart (lent earlier) at m }
    ensures { ChannelChecked c (lent today.entry) (lent earlier.entry) at n m result }
{
    today.check_part(at, n, c)?;
    earlier.check_part(at, m, c)?;
    if m != n {
        return Err(Cause::Call(Refusal::Samples(c)));
    }
    Ok(())
}

// The checks of all channels, one after the other. As lengths agree so far, a channel begins at the same place in both runs. The lengths of the
// run before are read by index: over a numbered zip of both lists the proof did not close.
fn check_channels(today: Run, earlier: Run) -> Result<(), Cause>
    requires { DividedRuns (lent today) (lent earlier) }
    ensures { ChannelsChecked (lent today.entry) (lent earlier.entry) result }
{
    let mut at = 0;
    for (c, &n) in today.lengths.iter().enumerate() {
        check_channel(today, earlier, at, n, earlier.lengths[c], c)?;
        at += n;
    }
    Ok(())
}

// Checks 14 and 11.
#[tactic(auto, using(std::proofs::lemmas::Bool::Decides::nat_tests), unfolding(crate::specs::Compare::runs_row))]
fn check_call(today: Run, earlier: Run, k: u64) -> Result<(), Refusal>
    ensures { CallChecked (lent today.entry) (lent earlier.entry) k result }
{
    if !(1..=16).contains(&k) {
        return Err(Refusal::Factor);
    }
    today.check_crate()?;
    earlier.check_crate()?;
    if earlier.lengths.len() != today.lengths.len() {
        return Err(Refusal::Crate);
    }
    Ok(())
}

// Check 10: an entry for each of m channels in both lists.
fn check_rooms(m: usize, room1: usize, room2: usize) -> Result<(), Refusal>
    ensures { result ≡ rooms_row m room1 room2 }
{
    if room1 < m || room2 < m {
        return Err(Refusal::Room(m));
    }
    Ok(())
}

// Check 4: the tolerance is allowed, and its parts agree.
fn hold_one(t: Tolerance) -> Result<Ratio, Refusal>
    ensures { HeldOne t result }
{
    let x = engine::hold::hold(t)?;
    if !tolerance::agree(x) {
        return Err(Refusal::Tolerance(0));
    }
    Ok(x.up)
}

// All checks, for lists of `room1` and `room2` entries.
#[tactic(auto, using(std::proofs::lemmas::Bool::Decides::nat_tests), unfolding(crate::specs::Compare::compare_rows))]
pub fn check(
    today: Run,
    earlier: Run,
    t: Tolerance,
    k: u64,
    room1: usize,
    room2: usize,
) -> Result<Ratio, Cause>
    ensures { Readied (lent today.entry) (lent earlier.entry) t k room1 room2 result }
{
    check_call(today, earlier, k)?;
    let r = hold_one(t)?;
    check_channels(today, earlier)?;
    check_rooms(today.lengths.len(), room1, room2)?;
    Ok(r)
}
