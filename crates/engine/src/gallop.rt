// The public call `gallop`: the samples that gallop keeps of a trace, and its probes.
ghost use Rattle.engine.specs.Reduce.{GallopOutcome};

use limits::{Limits, prepare_output};
use reduction::Galloped;
use refusal::Refusal;

// Writes gallop's list into the first entries of `out`, which has as many entries as the trace has samples or more.
pub fn gallop(
    ticks: &[u32],
    values: &[i16],
    t: Limits,
    out: &mut [u16],
) -> Result<Galloped, Refusal>
    ensures { GallopOutcome ticks.now values.now t out.old result out.new }
{
    let c = prepare_output(ticks, values, t, out.len())?;
    Ok(reduction::gallops::gallop(ticks, values, c, out))
}
