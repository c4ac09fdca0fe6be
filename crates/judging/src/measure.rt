// The call `measure`: where a link strays (document 02, "Where the line strays").
ghost use Rattle.judging.specs.Measure.{MeasureOutcome};

use measures::Measure;
use refusal::Refusal;

// The error of the link i to j, the first sample where it occurs, and its side.
#[tactic(auto, unfolding(crate::specs::Measure::measured_by, crate::specs::Measure::measure_rows), using(crate::proofs::MeasureLaws::measure_outcome))]
pub fn measure(ticks: &[u32], values: &[i16], i: usize, j: usize) -> Result<Measure, Refusal>
    ensures { MeasureOutcome ticks.now values.now i j result }
{
    trace::limits::check(ticks, values, 4096)?;
    proposed::check_ends(ticks.len(), i, j)?;
    Ok(measures::link_measure(ticks, values, i, j))
}
