// The call `expand`: the values of range codes.
ghost use Rattle.expanding.specs.Expand.{ExpandOutcome};

use refusal::{Refusal, check_room};

// Writes the value of each code into the first entries of `out`, which has as many entries as there are codes or more.
#[tactic(auto, unfolding(crate::specs::Expand::expand_rows))]
pub fn expand(codes: &[u8], out: &mut [i16]) -> Result<usize, Refusal>
    ensures { ExpandOutcome codes.now out.old result out.new }
{
    let n = codes.len();
    if n < 1 || 4096 < n {
        return Err(Refusal::Length);
    }
    check_room(n, out.len())?;
    codes::expand(codes, out);
    Ok(n)
}
