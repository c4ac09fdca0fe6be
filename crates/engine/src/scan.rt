// The public call `scan`: walk at 1 to 16 tolerances in one pass (document 02, "Sixteen tolerances in one reading").
ghost use Rattle.engine.specs.Scan.{ScanOutcome};

use refusal::Refusal;
use scans::Kept;
use tolerances::{Tolerances, prepare};

// Writes walk's list at each tolerance into the first entries of its part of `out`; the parts lie one after another, each as long as the trace.
pub fn scan(
    ticks: &[u32],
    values: &[i16],
    t: Tolerances,
    gap: u32,
    out: &mut [u16],
) -> Result<Kept, Refusal>
    ensures { ScanOutcome ticks.now values.now t gap out.old result out.new }
{
    let parts = prepare(ticks, values, t, gap, out.len())?;
    Ok(scans::passes::scan(ticks, values, &parts[..t.count], gap, out))
}
