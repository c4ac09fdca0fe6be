// The public call `report`: a row for each channel of a crate, and totals (document 02, "Whole-crate report").
ghost use Rattle.reporting.specs.Report.{Surveyed, ReportOutcome};

use limits::Limits;
use refusal::Refusal;
use sheet::{Sheet, Summary, Totals};

// The whole report by value: checks 11, 4, 15 and 10, and the rows.
pub fn sheet_of(
    ticks: &[u32],
    values: &[i16],
    lengths: &[usize],
    t: Limits,
    room: usize,
) -> Result<Sheet, Refusal>
    ensures { Surveyed ticks.now values.now lengths.now t room result }
{
    reporting::sheet_of(ticks, values, lengths, t, room)
}

// Writes a row for each channel into the first entries of `out`, which has one a channel or more, and returns the totals.
pub fn report(
    ticks: &[u32],
    values: &[i16],
    lengths: &[usize],
    t: Limits,
    out: &mut [Summary],
) -> Result<Totals, Refusal>
    ensures { ReportOutcome ticks.now values.now lengths.now t out.old result out.new }
{
    let sheet = sheet_of(ticks, values, lengths, t, out.len())?;
    sheet::fill(out, &sheet);
    Ok(sheet.totals)
}
