// The public call `expand_with`: the values of range codes in a table that the caller brings.
ghost use Rattle.expanding.specs.Expand.{ExpandWithOutcome};

use refusal::Refusal;

// Writes the table's value of each code into the first entries of `out`, which has as many entries as there are codes or more.
// The table has 256 values, each above the one before.
pub fn expand_with(codes: &[u8], table: &[i16], out: &mut [i16]) -> Result<usize, Refusal>
    ensures { ExpandWithOutcome codes.now table.now out.old result out.new }
{
    expanding::expand_with::expand_with(codes, table, out)
}
