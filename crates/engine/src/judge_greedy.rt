// The public call `judge_greedy`, judge's second question: whether a proposed list is greedy (document 02, "Lists from other labs").
ghost use Rattle.greedy.specs.Greedy.{JudgeGreedyOutcome};

use greedy::GreedyVerdict;
use limits::Limits;
use refusal::Refusal;

// Whether each link of the list is valid and each stop but the last sample is followed by an invalid link from the same start to the next
// sample; if not, the first position at fault, and which fault.
pub fn judge_greedy(
    ticks: &[u32],
    values: &[i16],
    list: &[u16],
    t: Limits,
) -> Result<GreedyVerdict, Refusal>
    ensures { JudgeGreedyOutcome ticks.now values.now list.now t result }
{
    greedy::judge_greedy(ticks, values, list, t)
}
