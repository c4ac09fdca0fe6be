// The state that an addition leaves: the new sample last, and an inner sample dropped where there would be more than 2k.
ghost use Rattle.std.specs.Prelude.{◌≡◌, [], ◌∷◌, ◌++◌, ◌+◌, ◌≤◌, ◌<◌};
ghost use Rattle.lists.specs.Overwrite.{overwrite};
ghost use Rattle.views.specs.View.{without};
ghost use Rattle.live.specs.Live.{entries, grown, Ready};

use crate::View;
use crate::candidates::cheapest_at;

// Numbers are converted by `as` where there is no `From`: from u32 to usize, and to u16, where it is proved that they fit.

// The new sample last.
fn appended(view: View, new: u16) -> View
    requires { view.count < 66 }
    ensures { result ≡ record { k = view.k; count = view.count + 1; samples = overwrite (entries view ++ new ∷ []) view.samples } }
{
    let mut samples = view.samples;
    samples[view.count as usize] = new;
    View {
        count: view.count + 1,
        samples,
        ..view
    }
}

// The new sample last, and entry `at` + 1 dropped.
fn shifted(view: View, at: usize, new: u16) -> View
    requires { (at + 1 < view.count) × (view.count ≤ 66) }
    ensures { result ≡ record { k = view.k; count = view.count; samples = overwrite (without (at + 1) (entries view ++ new ∷ [])) view.samples } }
{
    let count = view.count as usize;
    let mut samples = view.samples;
    samples.copy_within(at + 2..count, at + 1);
    samples[count - 1] = new;
    View { samples, ..view }
}

// The state with the last sample of a trace added, where the checks pass.
pub fn grow(view: View, ticks: &[u32], values: &[i16]) -> View
    requires { Ready ticks.now values.now view }
    ensures { result ≡ grown ticks.now values.now view }
{
    let new = (ticks.len() - 1) as u16;
    if view.count < 2 * view.k + 2 {
        appended(view, new)
    } else {
        let at = cheapest_at(ticks, values, &view.samples, view.count as usize);
        shifted(view, at, new)
    }
}
