// The public calls on a live view (document 02, "Live view"): a view is begun from k, and a lent state is updated in place by each new sample.
ghost use Rattle.std.specs.Prelude.{◌≡◌};
ghost use Rattle.live.specs.Live.{begun_of, Added, AddOutcome};

use live::View;
use refusal::Refusal;

// A view of the first sample.
pub fn begin(k: u64) -> Result<View, Refusal>
    ensures { result ≡ begun_of k }
{
    live::begin(k)
}

// An addition by value: the state after it.
pub fn added(view: View, ticks: &[u32], values: &[i16]) -> Result<View, Refusal>
    ensures { Added ticks.now values.now view result }
{
    live::added(view, ticks, values)
}

// Adds the last sample to the view of those before it.
pub fn add(view: &mut View, ticks: &[u32], values: &[i16]) -> Result<(), Refusal>
    ensures { AddOutcome ticks.now values.now view.old result view.new }
{
    *view = added(*view, ticks, values)?;
    Ok(())
}
