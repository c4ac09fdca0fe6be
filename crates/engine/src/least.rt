// The public call `least`: the kept list of at most m samples that obeys the gap limit and has the least error.
ghost use Rattle.engine.specs.Least.{LeastOutcome};

use closest::Found;
use refusal::Refusal;

// Writes the minimum's list at the least error into the first entries of `out`, which has as many entries as the trace has samples or more.
pub fn least(
    ticks: &[u32],
    values: &[i16],
    gap: u32,
    m: usize,
    out: &mut [u16],
) -> Result<Found, Refusal>
    ensures { LeastOutcome ticks.now values.now gap m out.old result out.new }
{
    allowance::check(ticks, values, gap, m, out.len())?;
    Ok(closest::least(ticks, values, gap, m, out))
}
