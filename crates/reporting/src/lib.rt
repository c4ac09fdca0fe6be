// The report on a crate by value, which the engine makes public: its checks, and a row for each channel (document 02, "Whole-crate report").
#![tactic(auto)]

ghost use Rattle.reporting.specs.Report.{Surveyed};

use limits::{Limits, criterion};
use refusal::{Refusal, check_room};
use sheet::Sheet;

// The whole report by value: checks 11, 4, 15 and 10, and the rows.
#[tactic(auto, unfolding(crate::specs::Report::crate_rows))]
pub fn sheet_of(
    ticks: &[u32],
    values: &[i16],
    lengths: &[usize],
    t: Limits,
    room: usize,
) -> Result<Sheet, Refusal>
    ensures { Surveyed ticks.now values.now lengths.now t room result }
{
    channels::check(ticks, values, lengths)?;
    let c = criterion(t)?;
    check_room(lengths.len(), room)?;
    Ok(sheet::survey(ticks, values, lengths, c))
}
