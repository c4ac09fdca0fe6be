// The public call `walk`: the samples that walk keeps of a trace.
ghost use Rattle.engine.specs.Reduce.{WalkOutcome};

use limits::{Limits, prepare_output};
use refusal::Refusal;

// Writes walk's list into the first entries of `out`, which has as many entries as the trace has samples or more.
pub fn walk(ticks: &[u32], values: &[i16], t: Limits, out: &mut [u16]) -> Result<usize, Refusal>
    ensures { WalkOutcome ticks.now values.now t out.old result out.new }
{
    let c = prepare_output(ticks, values, t, out.len())?;
    Ok(reduction::walks::walk(ticks, values, c, out))
}
