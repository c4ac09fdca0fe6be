// The kept samples of a trace.
ghost use Rattle.std.specs.Prelude.{◌<◌, length};
ghost use Rattle.writer.specs.Writing.{Kept, SampleAt};

use crate::Sample;

// The kept sample at position i of the list.
pub fn sample_at(ticks: &[u32], values: &[i16], list: &[u16], i: usize) -> Sample
    requires { Kept ticks.now values.now list.now × (i < length list.now) }
    ensures { SampleAt ticks.now values.now list.now i result }
{
    let s = trace::edges::start_at(ticks, values, usize::from(list[i]));
    Sample {
        tick: s.tick,
        level: s.level,
    }
}
