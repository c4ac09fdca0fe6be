// The call `judge`: whether each link of a proposed list is valid.
ghost use Rattle.std.specs.Prelude.{◌≡◌, ◌-◌, length};
ghost use Rattle.kept.specs.Kept.{KeptList};
ghost use Rattle.trace.specs.Trace.{Trace};
ghost use Rattle.trace.specs.Link.{Bounded};
ghost use Rattle.judging.specs.Judge.{list_verdict, JudgeOutcome};

use crate::Verdict;
use limits::{Limits, prepare};
use refusal::Refusal;
use trace::Criterion;

// The verdict on a kept list.
#[tactic(auto, unfolding(crate::specs::Judge::list_verdict))]
fn verdict(ticks: &[u32], values: &[i16], list: &[u16], c: Criterion) -> Verdict
    requires { Trace ticks.now values.now × Bounded c × KeptList (length ticks.now - 1) list.now }
    ensures { result ≡ list_verdict ticks.now values.now list.now c }
{
    let k = proposed::first_invalid(ticks, values, c, list);
    if list.len() - 1 <= k {
        Verdict::Yes
    } else {
        Verdict::No(k, proposed::fault_at(ticks, values, c, list, k))
    }
}

// Whether each link of the list is valid; if not, the first that is not, and where it strays.
#[tactic(auto, unfolding(crate::specs::Judge::judge_of, crate::specs::Judge::judge_rows), using(crate::proofs::JudgeLaws::judge_outcome))]
pub fn judge(ticks: &[u32], values: &[i16], list: &[u16], t: Limits) -> Result<Verdict, Refusal>
    ensures { JudgeOutcome ticks.now values.now list.now t result }
{
    let c = prepare(ticks, values, t)?;
    proposed::check(list, ticks.len())?;
    Ok(verdict(ticks, values, list, c))
}
