// The public call `read`: the samples and the tolerance of a record.
ghost use Rattle.reader.specs.Reading.{ReadOutcome};

use commands::Content;
use refusal::Refusal;

// Writes the record's samples into the first entries of both lists. Each needs an entry a sample; a record that is refused changes nothing.
pub fn read(bytes: &[u8], ticks: &mut [u32], values: &mut [i16]) -> Result<Content, Refusal>
    ensures { ReadOutcome bytes.now ticks.old values.old result ticks.new values.new }
{
    reader::read(bytes, ticks, values)
}
