// The public call `same`: whether two records are the same.
ghost use Rattle.reader.specs.Reading.{SameOutcome};

use reader::Comparison;
use refusal::Refusal;

// Compares the samples and the tolerances of two records.
pub fn same(first: &[u8], second: &[u8]) -> Result<Comparison, Refusal>
    ensures { SameOutcome first.now second.now result }
{
    reader::same(first, second)
}
