// The public call `measure`: where a link strays (document 02, "Where the line strays").
ghost use Rattle.judging.specs.Measure.{MeasureOutcome};

use measures::Measure;
use refusal::Refusal;

// The error of the link i to j, the first sample where it occurs, and its side.
pub fn measure(ticks: &[u32], values: &[i16], i: usize, j: usize) -> Result<Measure, Refusal>
    ensures { MeasureOutcome ticks.now values.now i j result }
{
    judging::measure::measure(ticks, values, i, j)
}
