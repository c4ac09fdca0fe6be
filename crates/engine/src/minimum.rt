// The public call `minimum`: the shortest kept list of a trace whose links are valid.
ghost use Rattle.engine.specs.Minimum.{MinimumOutcome};

use limits::{Limits, prepare_output};
use refusal::Refusal;

// Writes the minimum's list into the first entries of `out`, which has as many entries as the trace has samples or more.
pub fn minimum(ticks: &[u32], values: &[i16], t: Limits, out: &mut [u16]) -> Result<usize, Refusal>
    ensures { MinimumOutcome ticks.now values.now t out.old result out.new }
{
    let c = prepare_output(ticks, values, t, out.len())?;
    Ok(shortest::minimum(ticks, values, c, out))
}
