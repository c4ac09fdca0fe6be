// The live view of a growing trace (document 02, "Live view"): its state, the checks, and what an addition makes of a state, by value.
#![tactic(auto)]

ghost use Rattle.std.specs.Prelude.{◌≡◌};
ghost use Rattle.live.specs.Live.{begun_of, is_view, state_row, Added};

use refusal::Refusal;

// k, how many samples are kept, and their numbers: both ends and at most 2k inner samples, k at most 32. No padding lies between or behind
// the fields: the C interface lends a state as it stands.
#[repr(C)]
#[derive(Clone, Copy)]
pub struct View {
    pub k: u32,
    pub count: u32,
    pub samples: [u16; 66],
}

mod candidates;
mod states;

// A view of the first sample, from k alone.
#[tactic(auto, unfolding(crate::specs::Live::begun_of))]
pub fn begin(k: u64) -> Result<View, Refusal>
    ensures { result ≡ begun_of k }
{
    if 32 < k {
        return Err(Refusal::View);
    }
    Ok(View {
        k: k as u32,
        count: 1,
        samples: [0u16; 66],
    })
}

// Whether a state is a view of n samples.
#[tactic(auto, unfolding(crate::specs::Live::is_view))]
fn is_view(view: View, n: usize) -> bool
    ensures { result ≡ is_view n view }
{
    if 32 < view.k || 2 * view.k + 2 < view.count {
        return false;
    }
    proposed::check(&view.samples[..view.count as usize], n).is_ok()
}

// Check 20, for n earlier samples.
#[tactic(auto, unfolding(crate::specs::Live::state_row))]
fn check_state(view: View, n: usize) -> Result<(), Refusal>
    ensures { result ≡ state_row n view }
{
    if is_view(view, n) {
        Ok(())
    } else {
        Err(Refusal::View)
    }
}

// The state with the last sample of the trace added, where the checks 1, 2, 3 and 20 pass.
#[tactic(auto, unfolding(crate::specs::Live::add_rows))]
pub fn added(view: View, ticks: &[u32], values: &[i16]) -> Result<View, Refusal>
    ensures { Added ticks.now values.now view result }
{
    trace::limits::check(ticks, values, 4096)?;
    check_state(view, ticks.len() - 1)?;
    Ok(states::grow(view, ticks, values))
}
