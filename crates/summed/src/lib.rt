// Summed channels: two traces with the same ticks added sample by sample (adding), and their two kept lists joined (joining); the checks of
// all that.
#![tactic(auto)]

ghost use Rattle.std.specs.Prelude.{◌≡◌};
ghost use Rattle.summed.specs.Sum.{sum_rows};

use refusal::{Refusal, check_room};

pub mod adding;
pub mod joining;

// All checks of two traces, two lists and two outputs of so many entries: each trace and each list in full before the next.
#[tactic(auto, unfolding(crate::specs::Sum::sum_rows))]
pub fn check(
    ticks1: &[u32],
    values1: &[i16],
    ticks2: &[u32],
    values2: &[i16],
    list1: &[u16],
    list2: &[u16],
    sums: usize,
    joined: usize,
) -> Result<(), Refusal>
    ensures { result ≡ sum_rows ticks1.now values1.now ticks2.now values2.now list1.now list2.now sums joined }
{
    trace::limits::check(ticks1, values1, 4096)?;
    trace::limits::check(ticks2, values2, 4096)?;
    proposed::check(list1, ticks1.len())?;
    proposed::check(list2, ticks2.len())?;
    matching::check(ticks1, ticks2)?;
    adding::check(values1, values2)?;
    check_room(ticks1.len(), sums)?;
    check_room(ticks1.len(), joined)
}
