// Several tolerances under one gap limit, and the checks of a call on a trace that takes them: 1, 2, 3, 19, 4, 15 and 10.
#![tactic(auto)]

ghost use Rattle.std.specs.Prelude.{◌≡◌, ◌≤◌};
ghost use Rattle.tolerances.specs.Tolerances.{count_row, Holds, ScanPrepared};

use limits::check_gap;
use ratio::Ratio;
use refusal::{Refusal, check_room};
use tolerance::{Parts, Tolerance, meaning_of};

// A tolerance in a list.
#[derive(Clone, Copy)]
pub struct Entry {
    pub tolerance: Tolerance,
}

// Up to 16 tolerances: the first `count` of `list`, as the C interface has them.
#[derive(Clone, Copy)]
pub struct Tolerances {
    pub count: usize,
    pub list: [Entry; 16],
}

const NONE: Parts = Parts {
    up: Ratio { p: 0, q: 0 },
    down: Ratio { p: 0, q: 0 },
};

// Check 19.
fn check_count(m: usize) -> Result<(), Refusal>
    ensures { result ≡ count_row m }
{
    if m < 1 || 16 < m {
        return Err(Refusal::Count);
    }
    Ok(())
}

// Check 4 of each tolerance: the parts in lowest terms under which they are held go into the same entries. The entries are lent, since a list
// that is returned takes its room on the stack twice.
fn hold_each(t: Tolerances, parts: &mut [Parts; 16]) -> Result<(), Refusal>
    requires { t.count ≤ 16 }
    ensures { Holds t result parts.new }
{
    for k in 0..t.count {
        let x = meaning_of(t.list[k].tolerance).ok_or(Refusal::Tolerance(k))?;
        parts[k] = x;
    }
    Ok(())
}

// Checks 1, 2, 3, 19, 4, 15 and 10, where each tolerance needs as many entries of an output of `room` as the trace has samples: the parts of
// the tolerances.
#[tactic(auto, unfolding(crate::specs::Tolerances::scan_rows, crate::specs::Tolerances::several_rows))]
pub fn prepare(
    ticks: &[u32],
    values: &[i16],
    t: Tolerances,
    gap: u32,
    room: usize,
) -> Result<[Parts; 16], Refusal>
    ensures { ScanPrepared ticks.now values.now t gap room result }
{
    trace::limits::check(ticks, values, 4096)?;
    check_count(t.count)?;
    let mut parts = [NONE; 16];
    hold_each(t, &mut parts)?;
    check_gap(gap)?;
    check_room(t.count * ticks.len(), room)?;
    Ok(parts)
}
