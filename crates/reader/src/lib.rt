// Reads records (document 01, "The record"): checks one (check), reads one into lent lists (read), compares two (same). Their commands are
// read in the crate `commands`.
#![tactic(auto)]

ghost use Rattle.reader.specs.Reading.{CheckOutcome, ReadOutcome, SameOutcome};

use commands::{Content, headers, passes};
use format::Fault;
use refusal::{Refusal, check_room};

// What a comparison answers.
#[derive(Clone, Copy)]
pub enum Comparison {
    Same,
    Different,
}

// Checks a record.
pub fn check(bytes: &[u8]) -> Result<Content, Fault>
    ensures { CheckOutcome bytes.now result }
{
    let header = headers::read_header(bytes)?;
    passes::count_samples(bytes, header.tolerance, header.first)
}

// Reads a record into two lent lists: it is checked first, and if it is declined nothing is written.
pub fn read(bytes: &[u8], ticks: &mut [u32], values: &mut [i16]) -> Result<Content, Refusal>
    ensures { ReadOutcome bytes.now ticks.old values.old result ticks.new values.new }
{
    let header = headers::read_header(bytes)?;
    let content = passes::count_samples(bytes, header.tolerance, header.first)?;
    check_room(content.samples, ticks.len())?;
    check_room(content.samples, values.len())?;
    passes::fill(bytes, header.first, content.samples, ticks, values);
    Ok(content)
}

// Compares two records: checks the first, then the second. Accepted ones are the same exactly if their bytes agree.
pub fn same(a: &[u8], b: &[u8]) -> Result<Comparison, Refusal>
    ensures { SameOutcome a.now b.now result }
{
    check(a)?;
    check(b).map_err(|fault| Refusal::SecondRecord(fault.at))?;
    if a == b {
        Ok(Comparison::Same)
    } else {
        Ok(Comparison::Different)
    }
}
