// The public call `write`: the record of a list's samples, into the event buffer from a place on.
ghost use Rattle.engine.specs.Write.{WriteOutcome};

use limits::{Limits, prepare};
use refusal::Refusal;
use tolerance::Parts;

// Writes the record of the samples that the list keeps and of the tolerance. Bytes before and after it keep their values.
pub fn write(
    ticks: &[u32],
    values: &[i16],
    list: &[u16],
    t: Limits,
    buffer: &mut [u8],
    place: usize,
) -> Result<usize, Refusal>
    ensures { WriteOutcome ticks.now values.now list.now t buffer.old place result buffer.new }
{
    let c = prepare(ticks, values, t)?;
    proposed::check(list, ticks.len())?;
    let k = proposed::first_invalid(ticks, values, c, list);
    if k + 1 < list.len() {
        return Err(Refusal::Link(k));
    }
    let held = Parts {
        up: c.up,
        down: c.down,
    };
    writer::write(ticks, values, list, held, buffer, place)
}
