// Writes the record of the samples that a list keeps of a trace (document 01, "The record"; document 02, "Above and below") into an event
// buffer. Commands are written in commands, and kept samples are read in samples.
#![tactic(auto)]

ghost use Rattle.std.specs.Prelude.{◌≡◌, ◌&&◌, ◌+◌, ◌-◌, ◌≤◌, leb, length};
ghost use Rattle.lists.specs.Overwrite.{overwrite};
ghost use Rattle.tolerance.specs.Meaning.{HeldParts};
ghost use Rattle.format.specs.Command.{size_of};
ghost use Rattle.format.specs.Format.{tolerance_command, encode};
ghost use Rattle.writer.specs.Writing.{Kept, kept_ticks, kept_values, kept_samples, selected, SampleAt, rest_of, RestLength, SamplesLength, LengthOf, most_bytes, ContentWritten};

use commands::{put_end, put_first, put_step, put_tolerance, step_size};
use refusal::{Refusal, check_room};
use samples::sample_at;
use tolerance::Parts;

// A sample: its tick and its level, the value + 32,768.
#[derive(Clone, Copy)]
pub struct Sample {
    pub tick: u64,
    pub level: u64,
}

pub mod commands;
pub mod samples;

// The bytes of the samples' commands: the first sample, the steps and the end.
fn samples_length(ticks: &[u32], values: &[i16], list: &[u16]) -> usize
    requires { Kept ticks.now values.now list.now }
    ensures { SamplesLength ticks.now values.now list.now result × (result ≤ 24586) }
{
    let mut s = sample_at(ticks, values, list, 0);
    let mut total = 0;
    for i in 0..list.len() - 1 {
        let to = sample_at(ticks, values, list, i + 1);
        total += step_size(s, to);
        s = to;
    }
    7 + total + 3
}

// The bytes of the tolerance's command.
fn tolerance_size(held: Parts) -> usize
    ensures { (result ≡ size_of (tolerance_command held)) × (result ≤ 17) }
{
    if tolerance::agree(held) { 9 } else { 17 }
}

// The length of the record.
fn record_length(ticks: &[u32], values: &[i16], list: &[u16], held: Parts) -> usize
    requires { Kept ticks.now values.now list.now }
    ensures { LengthOf held ticks.now values.now list.now result }
{
    tolerance_size(held) + samples_length(ticks, values, list)
}

// The steps after the first kept sample, and the end, go to the start of part. Returns their bytes.
fn put_steps(part: &mut [u8], ticks: &[u32], values: &[i16], list: &[u16], first: Sample) -> usize
    requires { Kept ticks.now values.now list.now × SampleAt ticks.now values.now list.now 0 first × (length (rest_of (kept_ticks ticks.now list.now) (kept_values values.now list.now) 0) ≤ length part.old) }
    ensures { (part.new ≡ overwrite (rest_of (kept_ticks ticks.now list.now) (kept_values values.now list.now) 0) part.old) × RestLength ticks.now values.now list.now result }
{
    let mut s = first;
    let mut at = 0;
    for i in 0..list.len() - 1 {
        let to = sample_at(ticks, values, list, i + 1);
        at += put_step(&mut part[at..], s, to);
        s = to;
    }
    put_end(&mut part[at..], list.len() as u64);
    at + 3
}

// The samples' commands go to the start of part. Returns their bytes.
fn put_samples(part: &mut [u8], ticks: &[u32], values: &[i16], list: &[u16]) -> usize
    requires { Kept ticks.now values.now list.now × (length (kept_samples ticks.now values.now list.now) ≤ length part.old) }
    ensures { (part.new ≡ overwrite (kept_samples ticks.now values.now list.now) part.old) × SamplesLength ticks.now values.now list.now result }
{
    let s = sample_at(ticks, values, list, 0);
    put_first(part, s);
    let rest = put_steps(&mut part[7..], ticks, values, list, s);
    7 + rest
}

// The record goes to the start of part. Returns its length.
fn put_record(part: &mut [u8], ticks: &[u32], values: &[i16], list: &[u16], held: Parts) -> usize
    requires { Kept ticks.now values.now list.now × (length (encode (selected held ticks.now values.now list.now)) ≤ length part.old) }
    ensures { (part.new ≡ overwrite (encode (selected held ticks.now values.now list.now)) part.old) × LengthOf held ticks.now values.now list.now result }
{
    let at = put_tolerance(part, held);
    let rest = put_samples(&mut part[at..], ticks, values, list);
    at + rest
}

// Writes the record where there is room for it, by its length.
fn write_counted(
    ticks: &[u32],
    values: &[i16],
    list: &[u16],
    held: Parts,
    buffer: &mut [u8],
    place: usize,
) -> Result<usize, Refusal>
    requires { Kept ticks.now values.now list.now × HeldParts held }
    ensures { ContentWritten (selected held ticks.now values.now list.now) buffer.old place result buffer.new }
{
    let n = record_length(ticks, values, list, held);
    check_room(n, buffer.len().saturating_sub(place))?;
    put_record(&mut buffer[place..], ticks, values, list, held);
    Ok(n)
}

// The most bytes of a record of so many samples at a tolerance.
fn most_bytes(held: Parts, samples: usize) -> usize
    requires { samples ≤ 4096 }
    ensures { result ≡ most_bytes held samples }
{
    tolerance_size(held) + 4 + 6 * samples
}

// Whether a buffer has room for n bytes from a place on.
fn has_room(size: usize, place: usize, n: usize) -> bool
    ensures { result ≡ (leb place size && leb n (size - place)) }
{
    place <= size && n <= size - place
}

// Writes the record of the kept samples and the held tolerance into the event buffer from a place on. Its length is counted only where a
// longer record would not fit.
pub fn write(
    ticks: &[u32],
    values: &[i16],
    list: &[u16],
    held: Parts,
    buffer: &mut [u8],
    place: usize,
) -> Result<usize, Refusal>
    requires { Kept ticks.now values.now list.now × HeldParts held }
    ensures { ContentWritten (selected held ticks.now values.now list.now) buffer.old place result buffer.new }
{
    if has_room(buffer.len(), place, most_bytes(held, list.len())) {
        let n = put_record(&mut buffer[place..], ticks, values, list, held);
        Ok(n)
    } else {
        write_counted(ticks, values, list, held, buffer, place)
    }
}
