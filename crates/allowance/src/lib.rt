// The checks of least: of a trace of at most 256 samples, a gap limit, an allowance and an output of `room` entries.
#![tactic(auto)]

ghost use Rattle.std.specs.Prelude.{◌≡◌, ◌≤◌, length};
ghost use Rattle.trace.specs.Trace.{Trace};
ghost use Rattle.allowance.specs.Rows.{allowance_row, holes_row, least_rows};

use closest::tries::fewest;
use limits::check_gap;
use refusal::{Refusal, check_room};

// Check 5.
fn check_allowance(m: usize) -> Result<(), Refusal>
    ensures { result ≡ allowance_row m }
{
    if m < 2 || 4096 < m {
        return Err(Refusal::Allowance);
    }
    Ok(())
}

// Check 16.
fn check_holes(ticks: &[u32], values: &[i16], gap: u32, m: usize) -> Result<(), Refusal>
    requires { Trace ticks.now values.now × (length ticks.now ≤ 256) }
    ensures { result ≡ holes_row ticks.now gap m }
{
    if m < fewest(ticks, values, gap) {
        return Err(Refusal::Holes);
    }
    Ok(())
}

// Checks 1, 2, 3, 15, 5, 16 and 10.
#[tactic(auto, unfolding(crate::specs::Rows::least_rows, crate::specs::Rows::allowed_rows), using(crate::proofs::RowLaws::trace_256))]
pub fn check(ticks: &[u32], values: &[i16], gap: u32, m: usize, room: usize) -> Result<(), Refusal>
    ensures { result ≡ least_rows ticks.now values.now gap m room }
{
    trace::limits::check(ticks, values, 256)?;
    check_gap(gap)?;
    check_allowance(m)?;
    check_holes(ticks, values, gap, m)?;
    check_room(ticks.len(), room)
}
