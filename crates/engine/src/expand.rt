// The public call `expand`: the values of range codes.
ghost use Rattle.expanding.specs.Expand.{ExpandOutcome};

use refusal::Refusal;

// Writes the value of each code into the first entries of `out`, which has as many entries as there are codes or more.
pub fn expand(codes: &[u8], out: &mut [i16]) -> Result<usize, Refusal>
    ensures { ExpandOutcome codes.now out.old result out.new }
{
    expanding::expand::expand(codes, out)
}
