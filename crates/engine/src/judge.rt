// The public call `judge`: whether each link of a proposed list is valid.
ghost use Rattle.judging.specs.Judge.{JudgeOutcome};

use judging::Verdict;
use limits::Limits;
use refusal::Refusal;

// Whether each link of the list is valid; if not, the first that is not, and where it strays.
pub fn judge(ticks: &[u32], values: &[i16], list: &[u16], t: Limits) -> Result<Verdict, Refusal>
    ensures { JudgeOutcome ticks.now values.now list.now t result }
{
    judging::judge::judge(ticks, values, list, t)
}
