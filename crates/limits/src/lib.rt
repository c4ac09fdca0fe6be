// Limits, and what the calls on a trace with limits have in common: the checks 1 to 4 and 15, and 10 for those that write a list.
#![tactic(auto)]

ghost use Rattle.std.specs.Prelude.{◌≡◌};
ghost use Rattle.limits.specs.Prepare.{gap_row, Prepared, Allowed, OutputPrepared};

use refusal::{Refusal, check_room};
use tolerance::Tolerance;
use trace::Criterion;

// What links are asked to meet: a tolerance, and a gap limit in ticks from 1 to 1,048,575.
#[derive(Clone, Copy)]
pub struct Limits {
    pub tolerance: Tolerance,
    pub gap: u32,
}

// Check 15.
pub fn check_gap(gap: u32) -> Result<(), Refusal>
    ensures { result ≡ gap_row gap }
{
    if gap < 1 || 1_048_575 < gap {
        return Err(Refusal::Gap);
    }
    Ok(())
}

// Checks 4 and 15.
pub fn criterion(t: Limits) -> Result<Criterion, Refusal>
    ensures { Allowed t result }
{
    let parts = tolerance::meaning_of(t.tolerance).ok_or(Refusal::Tolerance(0))?;
    check_gap(t.gap)?;
    Ok(Criterion {
        up: parts.up,
        down: parts.down,
        gap: t.gap,
    })
}

// Checks 1, 2, 3, 4 and 15.
#[tactic(auto, unfolding(crate::specs::Prepare::common_rows), using(crate::proofs::PrepareLaws::trace_fine))]
pub fn prepare(ticks: &[u32], values: &[i16], t: Limits) -> Result<Criterion, Refusal>
    ensures { Prepared ticks.now values.now t result }
{
    trace::limits::check(ticks, values, 4096)?;
    criterion(t)
}

// Checks 1, 2, 3, 4, 15 and 10, for an output of `room` entries.
#[tactic(auto, unfolding(crate::specs::Prepare::output_rows))]
pub fn prepare_output(
    ticks: &[u32],
    values: &[i16],
    t: Limits,
    room: usize,
) -> Result<Criterion, Refusal>
    ensures { OutputPrepared ticks.now values.now t room result }
{
    let c = prepare(ticks, values, t)?;
    check_room(ticks.len(), room)?;
    Ok(c)
}
