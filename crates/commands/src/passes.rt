// Passes over all steps of a record: one that counts its samples and writes nothing, and one that fills lent lists with them.
ghost use Rattle.std.specs.Prelude.{◌≡◌, false, ◌-◌, ◌≤◌, length, set};
ghost use Rattle.format.specs.Number.{value_of};
ghost use Rattle.format.specs.Format.{attach, samples_from, step_of};
ghost use Rattle.commands.specs.Passing.{record_verdict, is_sample, closed_by, CursorOk, AfterFirst, Entry, Fitting, Filled};

use crate::Content;
use crate::command::command_at;
use crate::steps::{next_sample, step};
use format::{Command, Cursor, Fault};
use tolerance::Parts;

// What is answered at a cursor that no sample follows: at the end what the record says, else the fault.
fn close(bytes: &[u8], x: Parts, c: Cursor) -> Result<Content, Fault>
    requires { CursorOk (length bytes.now) c × (is_sample (step_of bytes.now c) ≡ false) }
    ensures { result ≡ closed_by x c (step_of bytes.now c) }
{
    let Command::End(samples) = command_at(bytes, c.at) else {
        return Err(Fault { at: c.at });
    };
    if samples != c.count as u64 {
        return Err(Fault { at: c.at });
    }
    if c.at + 3 != bytes.len() {
        return Err(Fault { at: c.at + 3 });
    }
    Ok(Content {
        samples: c.count,
        tolerance: x,
    })
}

// Counts the samples, from the cursor after the first one on.
pub fn count_samples(bytes: &[u8], x: Parts, start: Cursor) -> Result<Content, Fault>
    requires { AfterFirst (length bytes.now) start }
    ensures { result ≡ record_verdict (attach x (samples_from bytes.now start)) }
{
    let mut c = start;
    while let Some(next) = step(bytes, c) {
        c = next;
    }
    close(bytes, x, c)
}

// The value of a level.
fn value(level: u64) -> i16
    requires { level ≤ 65535 }
    ensures { result ≡ value_of level }
{
    (level as i64 - 32768) as i16
}

// The sample at the cursor goes to its entry of both lists.
fn put_sample(ticks: &mut [u32], values: &mut [i16], c: Cursor)
    requires { Entry c (length ticks.old) (length values.old) }
    ensures { (ticks.new ≡ set ticks.old (c.count - 1) c.tick) × (values.new ≡ set values.old (c.count - 1) (value_of c.level)) }
{
    let i = c.count - 1;
    ticks[i] = c.tick as u32;
    values[i] = value(c.level);
}

// Writes the n samples of a record without fault, from the cursor after the first one on. The cursor counts the samples.
pub fn fill(bytes: &[u8], start: Cursor, n: usize, ticks: &mut [u32], values: &mut [i16])
    requires { AfterFirst (length bytes.now) start × Fitting (samples_from bytes.now start) n (length ticks.old) (length values.old) }
    ensures { Filled (samples_from bytes.now start) ticks.old values.old ticks.new values.new }
{
    let mut c = start;
    put_sample(ticks, values, c);
    while c.count < n {
        c = next_sample(bytes, c);
        put_sample(ticks, values, c);
    }
}
